ghost use Rattle.std.specs.Prelude.{◌≡◌, IfOk};

use crate::seen_lines::check_told;
use crate::sites::{Run, Word, image, made_over, recording_of, run_over};
use outside::station::{MomentStation, Torn};
use outside::{MapSite, OpenGate};
use sha2::{Digest, Sha256};
use status::Status;
use std::alloc::Global;
use std::collections::BTreeMap;
use std::process::Abort;
use std::sync::Wait;
use std::test::Fail;
use std::thread::Threads;

// Three strain gauges on steel, and 128 classes of 1 N/mm².
const SITE: &str = r#"
[grid]
classes = 128
width = 2
low = -64000
reference = 64
[[gauge]]
name = "G1"
file = "g1.sgrc"
num = 210
[[gauge]]
name = "G2"
file = "g2.sgrc"
num = 210
[[gauge]]
name = "G3"
file = "g3.sgrc"
num = 210
[[detail]]
name = "W1"
gauge = "G1"
kind = "normal"
category = 71
gamma = 135
[[detail]]
name = "W2"
gauge = "G2"
kind = "normal"
category = 71
gamma = 135
[[detail]]
name = "W3"
gauge = "G3"
kind = "normal"
category = 71
gamma = 135
"#;

// The SHA-256 of its report, by an independent count. Each gauge has 100000 samples, of which
// 99949 are used, 50 are missing and one is refused.
const REPORT_DIGEST: [u8; 32] = [
    0x48, 0x7e, 0xce, 0xf6, 0x42, 0xbb, 0x4b, 0x2c, 0x5e, 0xed, 0x8f, 0xc0, 0x21, 0x12, 0x42, 0x4b,
    0xae, 0xe6, 0x78, 0x7f, 0xf5, 0x21, 0xbc, 0xf7, 0x1c, 0xe3, 0xce, 0x71, 0xab, 0xf2, 0x98, 0x2f,
];

// What is told of the first two rounds.
const FIRST: &str = "held G1 16384
held G2 16384
held G3 16384
held G1 32768
held G2 32768
held G3 32768
";

// What is told behind the second round, of 16 blocks of each gauge.
const REST: &str = "held G1 49152
held G2 49152
held G3 49152
held G1 65536
held G2 65536
held G3 65536
held G1 81920
held G2 81920
held G3 81920
held G1 98304
held G2 98304
held G3 98304
held G1 100000
held G2 100000
held G3 100000
";

// A hundred thousand strains of -300 to 300 microstrain by a linear congruential generator, with
// fifty dropouts and one spike.
fn strains(alloc: Global, seed: u32) -> Result<Vec<u8>, Fail> {
    let mut file = recording_of(alloc, 0x11, &[])?;
    let mut state = seed;
    for i in 0..100_000u32 {
        state = state.wrapping_mul(1_664_525).wrapping_add(1_013_904_223);
        let raw = match i {
            50_500 => 9000,
            _ if i % 2000 == 1000 => i32::MIN,
            _ => i32::from((state >> 16) as u16 % 601) - 300,
        };
        file.extend_from_slice(&raw.to_le_bytes())?;
    }
    Ok(file)
}

fn site_of_three(alloc: Global) -> Result<MapSite, Fail>
    ensures { IfOk result (λ site. site.out ≡ 0) }
{
    let mut files = BTreeMap::new(alloc);
    for (seed, name) in [(1, "g1.sgrc"), (2, "g2.sgrc"), (3, "g3.sgrc")] {
        files.insert(String::from_str(alloc, name)?, strains(alloc, seed)?)?;
    }
    Ok(MapSite::new(alloc, files, 65_536, Vec::new(alloc)))
}

fn config_of(alloc: Global, workers: u8) -> Result<String, Fail> {
    let text = format!(in alloc; "[count]\nblock = 1024\nworkers = {workers}\n{SITE}")?;
    Ok(text)
}

fn made_store(rt: &impl Abort, alloc: Global) -> Result<Vec<u8>, Fail> {
    let mut site = site_of_three(alloc)?;
    let config = config_of(alloc, 4)?;
    image(alloc, &made_over(rt, alloc, config.as_str(), &mut site)?)
}

fn run<R: Abort + AllocGlobal + Threads + Wait + Sync>(
    rt: &R,
    word: Word,
    workers: u8,
    store: Vec<u8>,
) -> Result<Run, Fail> {
    let alloc = rt.alloc();
    let mut site = site_of_three(alloc)?;
    let config = config_of(alloc, workers)?;
    let station = MomentStation::new(alloc, store, Vec::new(alloc));
    let run = run_over(
        rt,
        word,
        config.as_str(),
        &mut site,
        station,
        1_000_000,
        &OpenGate,
    )?;
    assert_eq!(rt; run.status, Status::Done);
    assert_eq!(rt; Sha256::digest(run.out.written()), REPORT_DIGEST);
    Ok(run)
}

// A put is four calls of the station, and a line one more.
#[test]
fn a_usual_site_is_stopped_after_two_rounds(rt: HostRuntime) -> Result<(), Fail> {
    let alloc = rt.alloc();
    let whole = run(&rt, Word::Count, 4, made_store(&rt, alloc)?)?;
    assert!(rt; whole.station.told().ends_with(REST.as_bytes()));
    let left_out = 5 * 3 * 5;
    assert!(rt; whole.station.calls() >= left_out);
    let left = whole
        .station
        .crash(alloc, whole.station.calls() - left_out, Torn::Old)?;
    let again = run(&rt, Word::Count, 4, left)?;
    assert_eq!(rt; again.station.told(), REST.as_bytes());
    let by_one = run(&rt, Word::Count, 1, made_store(&rt, alloc)?)?;
    assert_eq!(rt; again.out.written(), by_one.out.written());
    Ok(())
}

// The numbers of a gauge that a watcher may have seen, of a store without samples.
const NUMBERS: &[u64] = &[0, 16_384, 32_768, 49_152, 65_536, 81_920, 98_304, 100_000];

#[test]
fn a_usual_site_is_watched(rt: HostRuntime) -> Result<(), Fail> {
    let alloc = rt.alloc();
    let watched = run(&rt, Word::Watch, 4, made_store(&rt, alloc)?)?;
    let held = format!(in alloc; "{FIRST}{REST}")?;
    let seen = [("G1", NUMBERS), ("G2", NUMBERS), ("G3", NUMBERS)];
    check_told(&rt, alloc, watched.station.told(), held.as_str(), &seen)
}
