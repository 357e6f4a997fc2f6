use audit_command::audit_command;
use outside::station::MomentStation;
use outside::{BytesSource, MapSite, VecSink};
use recount::What;
use status::{RecordingFault, Status};
use std::alloc::{AllocError, Global};
use std::collections::BTreeMap;
use std::process::Abort;
use std::test::Fail;

const CONFIG: &str = "\
[grid]
classes = 16
width = 2
low = -8000
reference = 8
[[gauge]]
name = \"G1\"
file = \"g1.sgrc\"
num = 1000
";

// A recording's head of the period 10,000 microseconds.
const RECORDING: &[u8] = &[
    b'S', b'G', b'R', b'C', 1, 0, 0, 0, 0x11, 0x11, 0x11, 0x11, 0x11, 0x11, 0x11, 0x11, 0x11, 0x11,
    0x11, 0x11, 0x11, 0x11, 0x11, 0x11, 0x10, 0x27, 0, 0, 0, 0, 0, 0,
];

// A store of version 1 for it, which holds one body of the levels 8 13 8 13.
const STORE: &[u8] = &[
    1, 83, 71, 83, 84, 1, 0, 1, 0, 16, 0, 2, 255, 255, 255, 255, 255, 255, 224, 192, 0, 8, 17, 17,
    17, 17, 17, 17, 17, 17, 17, 17, 17, 17, 17, 17, 17, 17, 0, 0, 39, 16, 0, 0, 0, 0, 0, 0, 3, 232,
    0, 0, 0, 1, 0, 0, 0, 0, 0, 0, 0, 0, 1, 0, 0, 0, 158, 0, 0, 0, 0, 0, 0, 0, 0, 0, 0, 0, 0, 0, 0,
    0, 0, 0, 4, 0, 0, 0, 0, 0, 0, 0, 4, 0, 0, 0, 0, 0, 0, 0, 0, 0, 0, 0, 0, 0, 0, 0, 0, 0, 0, 0, 0,
    0, 0, 0, 4, 0, 8, 0, 13, 0, 8, 0, 13, 0, 2, 0, 8, 0, 13, 0, 0, 0, 1, 0, 8, 0, 13, 0, 0, 0, 0,
    0, 0, 0, 1, 0, 5, 0, 9, 0, 0, 0, 0, 0, 0, 0, 2, 0, 10, 0, 0, 0, 0, 0, 0, 0, 2, 0, 11, 0, 0, 0,
    0, 0, 0, 0, 2, 0, 12, 0, 0, 0, 0, 0, 0, 0, 2, 0, 13, 0, 0, 0, 0, 0, 0, 0, 2, 0, 1, 0, 13, 0, 0,
    0, 0, 0, 0, 0, 1, 0, 0, 0, 1, 0, 5, 0, 0, 0, 0, 0, 0, 0, 3, 72, 16, 120, 197, 133, 148, 197,
    27, 136, 52, 175, 66, 237, 201, 91, 202, 8, 77, 59, 103, 26, 192, 218, 197, 112, 76, 66, 255,
    4, 93, 59, 4, 0,
];

// What an audit of these samples answers.
fn audit(
    alloc: Global,
    raws: &[i32],
    station: &mut MomentStation,
    out: &mut VecSink,
) -> Result<Status, AllocError> {
    let mut file = RECORDING.to_vec(alloc)?;
    for raw in raws {
        file.extend_from_slice(&raw.to_le_bytes())?;
    }
    let mut files = BTreeMap::new(alloc);
    files.insert(String::from_str(alloc, "g1.sgrc")?, file)?;
    let mut site = MapSite::new(alloc, files, 7, Vec::new(alloc));
    let mut config = BytesSource::new(CONFIG.as_bytes().to_vec(alloc)?, 7, Vec::new(alloc));
    Ok(audit_command(alloc, &mut config, &mut site, station, out))
}

// What it answers, prints and tells.
fn check(
    rt: &impl Abort,
    alloc: Global,
    raws: &[i32],
    status: Status,
    printed: &str,
    told: &str,
) -> Result<(), Fail> {
    let mut station = MomentStation::new(alloc, STORE.to_vec(alloc)?, Vec::new(alloc));
    let mut out = VecSink::new(alloc, 100, Vec::new(alloc))?;
    assert_eq!(rt; audit(alloc, raws, &mut station, &mut out)?, status);
    assert_eq!(rt; out.written(), printed.as_bytes());
    assert_eq!(rt; station.told(), told.as_bytes());
    Ok(())
}

// Raw values behind the held ones are not looked at. One that was rewritten takes the cycle away,
// since 8 13 9 13 has another one, of 9 and 13.
#[test]
fn the_held_samples_are_compared(rt: HostRuntime) -> Result<(), Fail> {
    let alloc = rt.alloc();
    check(
        &rt,
        alloc,
        &[0, 5, 0, 5, 7],
        Status::Done,
        "audit G1 same\n",
        "",
    )?;
    let other = Status::Differs {
        gauge: 0,
        what: What::Cell(8, 13),
        held: 3,
        found: 1,
    };
    let line = "audit G1: cell 8 13 held 3, recount 1\n";
    check(&rt, alloc, &[0, 5, 1, 5], other, "", line)?;
    let fewer = Status::Recording {
        gauge: 0,
        fault: RecordingFault::Fewer { held: 4, there: 3 },
    };
    let line = "recording G1: 4 held, 3 there\n";
    check(&rt, alloc, &[0, 5, 0], fewer, "", line)
}
