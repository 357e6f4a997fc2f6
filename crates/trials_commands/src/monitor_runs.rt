ghost use Rattle.std.specs.Prelude.{◌≡◌, IfOk};

use monitor::monitor;
use outside::station::MomentStation;
use outside::{MapSite, OpenGate, SteadySource, VecSink};
use status::{RecordingFault, Status, StoreFault};
use std::alloc::{AllocError, Global};
use std::collections::BTreeMap;
use std::process::Abort;
use std::sync::Wait;
use std::test::Fail;
use std::thread::Threads;

const HEAD: &[u8] = &[
    b'S', b'G', b'R', b'C', 1, 0, 0, 0, 0x11, 0x11, 0x11, 0x11, 0x11, 0x11, 0x11, 0x11, 0x11, 0x11,
    0x11, 0x11, 0x11, 0x11, 0x11, 0x11, 0x10, 0x27, 0, 0, 0, 0, 0, 0,
];

// The levels of the standard's own example.
const EXAMPLE: &[i32] = &[6, 9, 5, 13, 7, 11, 4, 12, 6];

const EXAMPLE_TABLE: &str = "rainflow\n9.0 0.5\n8.0 1.0\n6.0 0.5\n4.0 1.5\n3.0 0.5\n";

fn file_of(alloc: Global, raws: &[i32]) -> Result<Vec<u8>, AllocError> {
    let mut bytes = HEAD.to_vec(alloc)?;
    for raw in raws {
        bytes.extend_from_slice(&raw.to_le_bytes())?;
    }
    Ok(bytes)
}

// A site with the one file `t`, whose sources give so many bytes at a time.
fn site_of(alloc: Global, bytes: Vec<u8>, longest: usize) -> Result<MapSite, AllocError>
    ensures { IfOk result (λ site. site.out ≡ 0) }
{
    let mut files = BTreeMap::new(alloc);
    files.insert(String::from_str(alloc, "t")?, bytes)?;
    Ok(MapSite::new(alloc, files, longest.max(1), Vec::new(alloc)))
}

fn words_of(alloc: Global, words: &[&str]) -> Result<Vec<String>, AllocError> {
    let mut all = Vec::new(alloc);
    for word in words {
        all.push(String::from_str(alloc, word)?)?;
    }
    Ok(all)
}

fn empty_station(alloc: Global) -> MomentStation {
    MomentStation::new(alloc, Vec::new(alloc), Vec::new(alloc))
}

// What these words answer without a configuration.
fn run<R: AllocGlobal + Threads + Wait + Sync>(
    rt: &R,
    words: &[String],
    site: &mut MapSite,
    station: &mut MomentStation,
    out: &mut VecSink,
) -> Status
    requires { site.old.out ≡ 0 }
{
    let mut config = SteadySource::new(Vec::new(rt.alloc()));
    monitor(rt, words, &mut config, site, station, out, &OpenGate)
}

// What `table t` answers of a file.
fn table<R: AllocGlobal + Threads + Wait + Sync>(
    rt: &R,
    bytes: Vec<u8>,
    longest: usize,
    out: &mut VecSink,
) -> Result<Status, AllocError> {
    let alloc = rt.alloc();
    let mut site = site_of(alloc, bytes, longest)?;
    let mut station = empty_station(alloc);
    let words = words_of(alloc, &["table", "t"])?;
    Ok(run(rt, words.as_slice(), &mut site, &mut station, out))
}

// Samples, the first line of their table, and what stands behind it. The tables were computed by
// hand, from the steps of the standard.
const TABLES: &[(&[i32], &str, &str)] = &[
    (
        EXAMPLE,
        "samples 9 used 9 missing 0 refused 0\n",
        EXAMPLE_TABLE,
    ),
    (
        &[6, 9, 5, 13, 7, 11, 4, 12, 6, 64],
        "samples 10 used 9 missing 0 refused 1\n",
        EXAMPLE_TABLE,
    ),
    (
        &[
            i32::MIN,
            6,
            9,
            5,
            -1,
            13,
            7,
            i32::MIN,
            11,
            4,
            i32::MAX,
            12,
            6,
        ],
        "samples 13 used 9 missing 2 refused 2\n",
        EXAMPLE_TABLE,
    ),
    (&[], "samples 0 used 0 missing 0 refused 0\n", "rainflow\n"),
    (
        &[10, 10, 10],
        "samples 3 used 3 missing 0 refused 0\n",
        "rainflow\n",
    ),
    (
        &[8, 13, 8, 13],
        "samples 4 used 4 missing 0 refused 0\n",
        "rainflow\n5.0 1.5\n",
    ),
    (
        &[8, 13, 13, 8],
        "samples 4 used 4 missing 0 refused 0\n",
        "rainflow\n5.0 1.0\n",
    ),
    (
        &[8, 13, 11, 9, 14],
        "samples 5 used 5 missing 0 refused 0\n",
        "rainflow\n6.0 0.5\n4.0 1.0\n",
    ),
    (
        &[0, 63],
        "samples 2 used 2 missing 0 refused 0\n",
        "rainflow\n63.0 0.5\n",
    ),
];

fn check_table<R: AllocGlobal + Abort + Threads + Wait + Sync>(
    rt: &R,
    raws: &[i32],
    longest: usize,
    samples: &str,
    rainflow: &str,
) -> Result<(), Fail> {
    let alloc = rt.alloc();
    let mut out = VecSink::new(alloc, 200, Vec::new(alloc))?;
    let status = table(rt, file_of(alloc, raws)?, longest, &mut out)?;
    assert_eq!(rt; status, Status::Done);
    let expected = format!(in alloc; "{samples}{rainflow}")?;
    assert_eq!(rt; out.written(), expected.as_bytes());
    Ok(())
}

#[test]
fn tables(rt: HostRuntime) -> Result<(), Fail> {
    for &(raws, samples, rainflow) in TABLES {
        for longest in [1, 7, 4096] {
            check_table(&rt, raws, longest, samples, rainflow)?;
        }
    }
    Ok(())
}

#[test]
fn refusals_print_nothing(rt: HostRuntime) -> Result<(), Fail> {
    let alloc = rt.alloc();
    let refused = |fault| Status::Recording { gauge: 0, fault };
    let cases = [
        (0, b'T', 32, refused(RecordingFault::Magic)),
        (4, 2, 40, refused(RecordingFault::Version(2))),
        (6, 1, 40, refused(RecordingFault::NotZero)),
        (31, 9, 40, refused(RecordingFault::NotZero)),
        (0, b'S', 31, refused(RecordingFault::Short)),
        (0, b'S', 0, refused(RecordingFault::Short)),
        (0, b'S', 34, Status::Torn { gauge: 0, bytes: 2 }),
        (0, b'S', 67, Status::Torn { gauge: 0, bytes: 3 }),
    ];
    for (place, byte, length, status) in cases {
        let mut bytes = file_of(alloc, EXAMPLE)?;
        bytes.truncate(length);
        if place < bytes.len() {
            bytes[place] = byte;
        }
        let mut out = VecSink::new(alloc, 200, Vec::new(alloc))?;
        assert_eq!(rt; table(&rt, bytes, 5, &mut out)?, status);
        assert_eq!(rt; out.written().len(), 0);
    }
    Ok(())
}

#[test]
fn an_output_without_room(rt: HostRuntime) -> Result<(), Fail> {
    let alloc = rt.alloc();
    let mut out = VecSink::new(alloc, 0, Vec::new(alloc))?;
    let status = table(&rt, file_of(alloc, EXAMPLE)?, 5, &mut out)?;
    assert_eq!(rt; status, Status::WriteFault);
    assert_eq!(rt; out.written().len(), 0);
    Ok(())
}

// `table t` where this take of the file fails.
fn check_failing<R: AllocGlobal + Abort + Threads + Wait + Sync>(
    rt: &R,
    failing: u64,
) -> Result<(), Fail> {
    let alloc = rt.alloc();
    let site = site_of(alloc, file_of(alloc, EXAMPLE)?, 7)?;
    let name = String::from_str(alloc, "t")?;
    let mut site = site.failing_reads(name, vec![in alloc; failing]?);
    let mut station = empty_station(alloc);
    let mut out = VecSink::new(alloc, 200, Vec::new(alloc))?;
    let words = words_of(alloc, &["table", "t"])?;
    let status = run(rt, words.as_slice(), &mut site, &mut station, &mut out);
    assert_eq!(rt; status, Status::ReadFault, "at take {failing}");
    assert_eq!(rt; station.told(), b"read fault\n".as_slice());
    assert_eq!(rt; out.written().len(), 0);
    Ok(())
}

// Takes of 7 bytes: the head ends in the fifth, the body in the eleventh, and the twelfth finds the
// end.
#[test]
fn takes_that_fail(rt: HostRuntime) -> Result<(), Fail> {
    for failing in [0, 4, 5, 10, 11u64] {
        check_failing(&rt, failing)?;
    }
    Ok(())
}

// How the line of words that are no command begins.
const USAGE: &str = "usage: monitor table FILE";

#[test]
fn words(rt: HostRuntime) -> Result<(), Fail> {
    let alloc = rt.alloc();
    let cases: [(&[&str], Status, &str); 8] = [
        (&[], Status::Usage, USAGE),
        (&["draw"], Status::Usage, USAGE),
        (&["table"], Status::Usage, USAGE),
        (&["table", "-t"], Status::Usage, USAGE),
        (&["tables", "t"], Status::Usage, USAGE),
        (&["table", "t", "t"], Status::Usage, USAGE),
        (&["count", "--workers", "9"], Status::Usage, USAGE),
        (&["table", "u"], Status::ReadFault, "read fault"),
    ];
    for (words, status, line) in cases {
        let mut site = site_of(alloc, file_of(alloc, EXAMPLE)?, 5)?;
        let mut out = VecSink::new(alloc, 200, Vec::new(alloc))?;
        let mut station = empty_station(alloc);
        let words = words_of(alloc, words)?;
        let answer = run(&rt, words.as_slice(), &mut site, &mut station, &mut out);
        assert_eq!(rt; answer, status);
        assert!(rt; station.told().starts_with(line.as_bytes()));
        assert_eq!(rt; out.written().len(), 0);
    }
    Ok(())
}

const CONFIG: &str = "[grid]\nclasses = 16\nwidth = 2\nlow = -8000\nreference = 8\n\
    [count]\nblock = 4\nworkers = 2\n[[gauge]]\nname = \"G1\"\nfile = \"t\"\nnum = 1000\n";

// A store is made once; of a gauge of which nothing is held nothing repeats.
#[test]
fn a_store_is_made(rt: HostRuntime) -> Result<(), Fail> {
    let alloc = rt.alloc();
    let mut station = empty_station(alloc);
    let mut out = VecSink::new(alloc, 200, Vec::new(alloc))?;
    let made = Status::Store(StoreFault::NotEmpty { size: 63 });
    for (word, status) in [
        ("init", Status::Done),
        ("init", made),
        ("repeat", Status::Done),
    ] {
        let words = words_of(alloc, &[word])?;
        let mut site = site_of(alloc, file_of(alloc, EXAMPLE)?, 5)?;
        let mut config = SteadySource::new(CONFIG.as_bytes().to_vec(alloc)?);
        let answer = monitor(
            &rt,
            words.as_slice(),
            &mut config,
            &mut site,
            &mut station,
            &mut out,
            &OpenGate,
        );
        assert_eq!(rt; answer, status);
    }
    assert_eq!(rt;
        station.told(),
        b"init 1\nstore: not empty, 63 bytes\n".as_slice()
    );
    assert_eq!(rt; out.written(), b"repeat G1\n".as_slice());
    Ok(())
}
