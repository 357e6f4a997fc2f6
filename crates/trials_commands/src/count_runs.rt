ghost use Rattle.std.specs.Prelude.{◌≡◌, IfOk};

use count_command::count_command;
use outside::station::{MomentStation, Torn};
use outside::{BytesSource, MapSite, OpenGate, VecSink};
use segment_store::Damage;
use status::{Status, StoreFault};
use std::alloc::{AllocError, Global};
use std::collections::BTreeMap;
use std::test::Fail;

// Blocks of one sample, so that four samples are four blocks of one round.
const CONFIG: &str = "\
[grid]
classes = 16
width = 2
low = -8000
reference = 8
[count]
block = 1
workers = 2
[[gauge]]
name = \"G1\"
file = \"g1.sgrc\"
num = 1000
[[detail]]
name = \"W1\"
gauge = \"G1\"
kind = \"normal\"
category = 71
gamma = 100
";

// The head of a recording, whose raw value `r` has level `r + 8`.
const RECORDING: &[u8] = &[
    83, 71, 82, 67, 1, 0, 0, 0, 17, 17, 17, 17, 17, 17, 17, 17, 17, 17, 17, 17, 17, 17, 17, 17, 16,
    39, 0, 0, 0, 0, 0, 0,
];

const RAWS: &[i32] = &[0, 5, 0, 5];

// A store of version 1 up to its first gate, for that recording with the gain 1000/1.
const HEAD: &[u8] = &[
    1, 83, 71, 83, 84, 1, 0, 1, 0, 16, 0, 2, 255, 255, 255, 255, 255, 255, 224, 192, 0, 8, 17, 17,
    17, 17, 17, 17, 17, 17, 17, 17, 17, 17, 17, 17, 17, 17, 0, 0, 39, 16, 0, 0, 0, 0, 0, 0, 3, 232,
    0, 0, 0, 1, 0, 0, 0, 0, 0, 0, 0, 0,
];

// The levels 8 13 8 13, with length and digest.
const BODY: &[u8] = &[
    0, 0, 0, 158, 0, 0, 0, 0, 0, 0, 0, 0, 0, 0, 0, 0, 0, 0, 0, 0, 0, 4, 0, 0, 0, 0, 0, 0, 0, 4, 0,
    0, 0, 0, 0, 0, 0, 0, 0, 0, 0, 0, 0, 0, 0, 0, 0, 0, 0, 0, 0, 0, 0, 4, 0, 8, 0, 13, 0, 8, 0, 13,
    0, 2, 0, 8, 0, 13, 0, 0, 0, 1, 0, 8, 0, 13, 0, 0, 0, 0, 0, 0, 0, 1, 0, 5, 0, 9, 0, 0, 0, 0, 0,
    0, 0, 2, 0, 10, 0, 0, 0, 0, 0, 0, 0, 2, 0, 11, 0, 0, 0, 0, 0, 0, 0, 2, 0, 12, 0, 0, 0, 0, 0, 0,
    0, 2, 0, 13, 0, 0, 0, 0, 0, 0, 0, 2, 0, 1, 0, 13, 0, 0, 0, 0, 0, 0, 0, 1, 0, 0, 0, 1, 0, 5, 0,
    0, 0, 0, 0, 0, 0, 3, 72, 16, 120, 197, 133, 148, 197, 27, 136, 52, 175, 66, 237, 201, 91, 202,
    8, 77, 59, 103, 26, 192, 218, 197, 112, 76, 66, 255, 4, 93, 59, 4,
];

const REPORT: &str = "\
gauge G1
samples 4 used 4 missing 0 refused 0
rainflow
5.0 1.5
matrix
8 13 1.5
crossings
9 2
10 2
11 2
12 2
13 2
peaks
13 1
valleys
ranges
5.0 1.5
detail W1 G1 0 0/100431314774943243998824192000000000 0.000000000
";

// A site with the recording of these samples and so many bytes behind them.
fn site_of(alloc: Global, torn: usize, failing: &[u64]) -> Result<MapSite, AllocError>
    ensures { IfOk result (λ site. site.out ≡ 0) }
{
    let mut bytes = RECORDING.to_vec(alloc)?;
    for &raw in RAWS {
        bytes.extend_from_slice(&raw.to_le_bytes())?;
    }
    for _ in 0..torn {
        bytes.push(1)?;
    }
    let mut files = BTreeMap::new(alloc);
    files.insert(String::from_str(alloc, "g1.sgrc")?, bytes)?;
    Ok(MapSite::new(alloc, files, 7, failing.to_vec(alloc)?))
}

fn image_of(alloc: Global, parts: &[&[u8]]) -> Result<Vec<u8>, AllocError> {
    let mut image = Vec::new(alloc);
    for part in parts {
        image.extend_from_slice(part)?;
    }
    Ok(image)
}

fn config_of(alloc: Global) -> Result<BytesSource, AllocError> {
    Ok(BytesSource::new(CONFIG.as_bytes().to_vec(alloc)?, 7, Vec::new(alloc)))
}

// The second run finds all samples held: it tells no line, and prints the same.
#[test]
fn what_is_new_is_stored_and_printed(rt: HostRuntime) -> Result<(), Fail> {
    let alloc = rt.alloc();
    let mut image = image_of(alloc, &[HEAD, &[0]])?;
    for (workers, line) in [(Some(3), "held G1 4\n"), (None, "")] {
        let mut station = MomentStation::new(alloc, image, Vec::new(alloc));
        let mut out = VecSink::new(alloc, 1000, Vec::new(alloc))?;
        let status = count_command(
            &rt,
            workers,
            &mut config_of(alloc)?,
            &mut site_of(alloc, 0, &[])?,
            &mut station,
            &mut out,
            &OpenGate,
        );
        assert_eq!(rt; status, Status::Done);
        assert_eq!(rt; out.written(), REPORT.as_bytes());
        assert_eq!(rt; station.told(), line.as_bytes());
        image = station.crash(alloc, station.calls(), Torn::Old)?;
        assert_eq!(rt;
            image.as_slice(),
            image_of(alloc, &[HEAD, &[1], BODY, &[0]])?.as_slice()
        );
    }
    Ok(())
}

// The bytes behind the samples, the fetch, the station call and the put that fail, the answer, and
// what is told.
#[test]
fn what_is_answered(rt: HostRuntime) -> Result<(), Fail> {
    let alloc = rt.alloc();
    let none: u64 = 99_999;
    let torn = Status::Torn { gauge: 0, bytes: 3 };
    let table = [
        (
            3,
            none,
            none,
            none,
            torn,
            "held G1 4\nrecording G1: ends in 3 odd bytes\n",
        ),
        (0, 0, none, none, Status::ReadFault, "read fault\n"),
        (0, none, 0, none, Status::DiskFault, "station fault\n"),
        (
            0,
            none,
            none,
            0,
            Status::WriteFault,
            "held G1 4\nwrite fault\n",
        ),
    ];
    for (odd, fetch, call, put, answer, told) in table {
        let mut station = MomentStation::new(
            alloc,
            image_of(alloc, &[HEAD, &[0]])?,
            [call].to_vec(alloc)?,
        );
        let mut out = VecSink::new(alloc, 1000, [put].to_vec(alloc)?)?;
        let status = count_command(
            &rt,
            None,
            &mut config_of(alloc)?,
            &mut site_of(alloc, odd, &[fetch])?,
            &mut station,
            &mut out,
            &OpenGate,
        );
        assert_eq!(rt; status, answer);
        assert_eq!(rt; station.told(), told.as_bytes());
        assert_eq!(rt; out.written(), "".as_bytes());
    }
    Ok(())
}

#[test]
fn a_store_that_is_cut_is_refused(rt: HostRuntime) -> Result<(), Fail> {
    let alloc = rt.alloc();
    let mut station = MomentStation::new(
        alloc,
        image_of(alloc, &[HEAD, &[1], &[0]])?,
        Vec::new(alloc),
    );
    let mut out = VecSink::new(alloc, 0, Vec::new(alloc))?;
    let status = count_command(
        &rt,
        None,
        &mut config_of(alloc)?,
        &mut site_of(alloc, 0, &[])?,
        &mut station,
        &mut out,
        &OpenGate,
    );
    let cut = StoreFault::Damaged {
        index: 0,
        damage: Damage::Cut { size: 64 },
    };
    assert_eq!(rt; status, Status::Store(cut));
    assert_eq!(rt; station.told(), "store: damaged at 0\n".as_bytes());
    Ok(())
}
