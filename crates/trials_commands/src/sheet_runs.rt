ghost use Rattle.std.specs.Prelude.{◌≡◌, IfOk};

use file_commands::sheet_command::sheet_command;
use outside::station::MomentStation;
use outside::{BytesSource, MapSite, VecSink};
use site_config::ConfigFault;
use status::{RecordingFault, Status};
use std::alloc::{AllocError, Global};
use std::collections::BTreeMap;
use std::test::Fail;

const CONFIG: &str = "\
[grid]
classes = 16
width = 2
low = -8000
reference = 8
[[gauge]]
name = \"G1\"
file = \"g1\"
num = 1000
[[gauge]]
name = \"G2\"
file = \"g2\"
num = 1000
";

const HEAD: &[u8] = &[
    b'S', b'G', b'R', b'C', 1, 0, 0, 0, 0x11, 0x11, 0x11, 0x11, 0x11, 0x11, 0x11, 0x11, 0x11, 0x11,
    0x11, 0x11, 0x11, 0x11, 0x11, 0x11, 0x10, 0x27, 0, 0, 0, 0, 0, 0,
];

const FIRST: &[u8] = &[1, 0, 0, 0, 0xfe, 0xff, 0xff, 0xff];

const SECOND: &[u8] = &[7, 0, 0, 0];

// What a run answers, what it writes and what it tells.
#[derive(Drop)]
struct Ran {
    status: Status,
    out: VecSink,
    station: MomentStation,
}

// The sheet of a site where G1 has the samples 1 and -2, by this file of G2.
fn run(alloc: Global, second: &[&[u8]], take: u64, put: u64) -> Result<Ran, AllocError> {
    let mut site = site_of(alloc, second, take)?;
    let mut config = BytesSource::new(CONFIG.as_bytes().to_vec(alloc)?, 7, Vec::new(alloc));
    let mut station = MomentStation::new(alloc, Vec::new(alloc), Vec::new(alloc));
    let mut out = VecSink::new(alloc, 100, [put].to_vec(alloc)?)?;
    let status = sheet_command(alloc, &mut config, &mut site, &mut station, &mut out);
    Ok(Ran {
        status,
        out,
        station,
    })
}

// Sources give 3 bytes at a time; this take of G2's fails.
fn site_of(alloc: Global, second: &[&[u8]], take: u64) -> Result<MapSite, AllocError>
    ensures { IfOk result (λ site. site.out ≡ 0) }
{
    let mut files = BTreeMap::new(alloc);
    files.insert(
        String::from_str(alloc, "g1")?,
        joined(alloc, &[HEAD, FIRST])?,
    )?;
    files.insert(String::from_str(alloc, "g2")?, joined(alloc, second)?)?;
    let site = MapSite::new(alloc, files, 3, Vec::new(alloc));
    Ok(site.failing_reads(String::from_str(alloc, "g2")?, [take].to_vec(alloc)?))
}

fn joined(alloc: Global, parts: &[&[u8]]) -> Result<Vec<u8>, AllocError> {
    let mut bytes = Vec::new(alloc);
    for part in parts {
        bytes.extend_from_slice(part)?;
    }
    Ok(bytes)
}

const NONE: u64 = 99_999;

#[test]
fn a_site_is_a_sheet(rt: HostRuntime) -> Result<(), Fail> {
    let ran = run(rt.alloc(), &[HEAD, SECOND], NONE, NONE)?;
    assert_eq!(rt; ran.status, Status::Done);
    assert_eq!(rt; ran.out.written(), b"G1,G2\n1,7\n-2,NaN\n".as_slice());
    assert_eq!(rt; ran.station.told(), b"".as_slice());
    Ok(())
}

// The file of G2, the take of it and the put that fail, the answer and its line.
#[test]
fn what_is_refused(rt: HostRuntime) -> Result<(), Fail> {
    let short = Status::Recording {
        gauge: 1,
        fault: RecordingFault::Short,
    };
    let torn = Status::Torn { gauge: 1, bytes: 1 };
    let table: [(&[&[u8]], u64, u64, Status, &str); 5] = [
        (&[b"SGRC"], NONE, NONE, short, "recording G2: short\n"),
        (
            &[HEAD, SECOND, b"x"],
            NONE,
            NONE,
            torn,
            "recording G2: ends in 1 odd bytes\n",
        ),
        (&[HEAD], 4, NONE, Status::ReadFault, "read fault\n"),
        (&[HEAD, SECOND], 12, NONE, Status::ReadFault, "read fault\n"),
        (&[HEAD], NONE, 0, Status::WriteFault, "write fault\n"),
    ];
    for (second, take, put, status, line) in table {
        let ran = run(rt.alloc(), second, take, put)?;
        assert_eq!(rt; ran.status, status);
        assert_eq!(rt; ran.out.written(), b"".as_slice());
        assert_eq!(rt; ran.station.told(), line.as_bytes());
    }
    Ok(())
}

#[test]
fn a_wrong_configuration(rt: HostRuntime) -> Result<(), Fail> {
    let alloc = rt.alloc();
    let mut site = site_of(alloc, &[HEAD], NONE)?;
    let mut config = BytesSource::new(b"[[".to_vec(alloc)?, 7, Vec::new(alloc));
    let mut station = MomentStation::new(alloc, Vec::new(alloc), Vec::new(alloc));
    let mut out = VecSink::new(alloc, 100, Vec::new(alloc))?;
    let status = sheet_command(alloc, &mut config, &mut site, &mut station, &mut out);
    assert_eq!(rt; status, Status::Config(ConfigFault::NotToml));
    assert_eq!(rt; station.told(), b"config: not TOML\n".as_slice());
    Ok(())
}
