ghost use Rattle.std.specs.Prelude.{◌≡◌, IfOk};

use crate::made::{MADE_REPORT, made_recording};
use crate::seen_lines::check_told;
use crate::sites::{
    COMMON, EXAMPLE, EXAMPLE_REPORT, Run, Word, image, made, made_over, recording_of, run_at,
    run_by, run_over, site_of,
};
use monitor::monitor;
use outside::station::MomentStation;
use outside::{HoldGate, MapSite, OpenGate, SteadySource, VecSink};
use status::Status;
use std::alloc::Global;
use std::collections::BTreeMap;
use std::process::Abort;
use std::sync::Wait;
use std::test::Fail;
use std::thread::Threads;

// A run over one gauge that ended well: its report, the lines that acknowledge, and the numbers that
// a watcher may have seen.
fn check(
    rt: &impl Abort,
    alloc: Global,
    run: &Run,
    report: &str,
    held: &str,
    numbers: &[u64],
) -> Result<(), Fail> {
    assert_eq!(rt; run.status, Status::Done);
    assert_eq!(rt; run.out.written(), report.as_bytes());
    check_told(rt, alloc, run.station.told(), held, &[("G1", numbers)])
}

// Where all is held there is nothing that a watcher may have seen but what is held.
#[test]
fn the_standards_example_is_watched(rt: HostRuntime) -> Result<(), Fail> {
    let alloc = rt.alloc();
    let file = recording_of(alloc, 0x11, EXAMPLE)?;
    let run = run_by(&rt, Word::Watch, file, made(&rt, alloc)?)?;
    check(&rt, alloc, &run, EXAMPLE_REPORT, "held G1 9\n", &[0, 9])?;
    let file = recording_of(alloc, 0x11, EXAMPLE)?;
    let again = run_by(&rt, Word::Watch, file, image(alloc, &run.station)?)?;
    check(&rt, alloc, &again, EXAMPLE_REPORT, "", &[9])
}

// Of an empty recording the watcher sees no sample.
#[test]
fn a_recording_without_samples_is_watched(rt: HostRuntime) -> Result<(), Fail> {
    let alloc = rt.alloc();
    let file = recording_of(alloc, 0x11, &[])?;
    let run = run_by(&rt, Word::Watch, file, made(&rt, alloc)?)?;
    assert_eq!(rt; run.status, Status::Done);
    assert_eq!(rt; run.station.told(), b"seen G1 0\n".as_slice());
    Ok(())
}

// Two rounds, of 64 samples and of 36; and a store that holds the first four samples already.
#[test]
fn two_rounds_are_watched(rt: HostRuntime) -> Result<(), Fail> {
    let alloc = rt.alloc();
    let run = run_by(
        &rt,
        Word::Watch,
        made_recording(&rt, alloc)?,
        made(&rt, alloc)?,
    )?;
    check(
        &rt,
        alloc,
        &run,
        MADE_REPORT,
        "held G1 64\nheld G1 100\n",
        &[0, 64, 100],
    )?;
    let mut front = made_recording(&rt, alloc)?;
    front.truncate(48);
    let four = run_by(&rt, Word::Count, front, made(&rt, alloc)?)?;
    assert_eq!(rt; four.station.told(), b"held G1 4\n".as_slice());
    let store = image(alloc, &four.station)?;
    let run = run_by(&rt, Word::Watch, made_recording(&rt, alloc)?, store)?;
    check(
        &rt,
        alloc,
        &run,
        MADE_REPORT,
        "held G1 68\nheld G1 100\n",
        &[4, 68, 100],
    )
}

#[test]
fn workers_count_beside_each_other_and_a_watcher(rt: HostRuntime) -> Result<(), Fail> {
    let alloc = rt.alloc();
    let gate = HoldGate::new(50_000_000);
    let file = recording_of(alloc, 0x11, EXAMPLE)?;
    let none = Vec::new(alloc);
    let run = run_at(&rt, Word::Watch, file, made(&rt, alloc)?, none, 2000, &gate)?;
    check(&rt, alloc, &run, EXAMPLE_REPORT, "held G1 9\n", &[0, 9])?;
    assert_eq!(rt; gate.passes(), 3);
    assert!(rt; !gate.gave_up());
    Ok(())
}

// What was seen is told before the report is printed.
#[test]
fn an_output_without_room_behind_a_watcher(rt: HostRuntime) -> Result<(), Fail> {
    let alloc = rt.alloc();
    let file = recording_of(alloc, 0x11, EXAMPLE)?;
    let none = Vec::new(alloc);
    let run = run_at(
        &rt,
        Word::Watch,
        file,
        made(&rt, alloc)?,
        none,
        20,
        &OpenGate,
    )?;
    assert_eq!(rt; run.status, Status::WriteFault);
    assert!(rt; EXAMPLE_REPORT.as_bytes().starts_with(run.out.written()));
    match run.station.told().strip_suffix(b"write fault\n") {
        None => Err(Fail::new("another line is told last")),
        Some(told) => check_told(
            &rt,
            alloc,
            told,
            "held G1 9\n",
            &[("G1", [0, 9].as_slice())],
        ),
    }
}

// The words, over the standard's example and a store that is made.
fn run_words<R: AllocGlobal + Threads + Wait + Sync>(
    rt: &R,
    words: &[&str],
    station: &mut MomentStation,
    out: &mut VecSink,
) -> Result<Status, Fail> {
    let alloc = rt.alloc();
    let mut line = Vec::new(alloc);
    for word in words {
        line.push(String::from_str(alloc, word)?)?;
    }
    let mut site = site_of(alloc, recording_of(alloc, 0x11, EXAMPLE)?)?;
    let mut config = SteadySource::new(COMMON.as_bytes().to_vec(alloc)?);
    let line = line.as_slice();
    Ok(monitor(rt, line, &mut config, &mut site, station, out, &OpenGate))
}

#[test]
fn a_store_is_made_and_watched(rt: HostRuntime) -> Result<(), Fail> {
    let alloc = rt.alloc();
    let mut station = MomentStation::new(alloc, Vec::new(alloc), Vec::new(alloc));
    let mut out = VecSink::new(alloc, 2000, Vec::new(alloc))?;
    let made = run_words(&rt, &["init"], &mut station, &mut out)?;
    assert_eq!(rt; made, Status::Done);
    let watched = run_words(&rt, &["watch", "--workers", "3"], &mut station, &mut out)?;
    assert_eq!(rt; watched, Status::Done);
    assert_eq!(rt; out.written(), EXAMPLE_REPORT.as_bytes());
    let gauges = [("G1", [0, 9].as_slice())];
    check_told(&rt, alloc, station.told(), "init 1\nheld G1 9\n", &gauges)
}

// Two gauges in blocks of one sample: a round takes sixteen of each.
const TWO: &str = r#"
[[gauge]]
name = "north"
file = "north.sgrc"
num = 1000
[[gauge]]
name = "south"
file = "south.sgrc"
num = 1000
[grid]
classes = 16
width = 2
low = -8000
reference = 8
"#;

// A site of forty samples and seventeen.
fn site_of_two(alloc: Global) -> Result<MapSite, Fail>
    ensures { IfOk result (λ site. site.out ≡ 0) }
{
    let mut files = BTreeMap::new(alloc);
    for (id, name, samples) in [(1, "north.sgrc", 40), (2, "south.sgrc", 17u8)] {
        let mut file = recording_of(alloc, id, &[])?;
        for i in 0..samples {
            file.extend_from_slice(&(i32::from(i % 7) - 3).to_le_bytes())?;
        }
        files.insert(String::from_str(alloc, name)?, file)?;
    }
    Ok(MapSite::new(alloc, files, 7, Vec::new(alloc)))
}

// A command over a new store of that site, by so many workers.
fn run_two<R: Abort + AllocGlobal + Threads + Wait + Sync>(
    rt: &R,
    word: Word,
    workers: u8,
) -> Result<Run, Fail> {
    let alloc = rt.alloc();
    let config = format!(in alloc; "[count]\nblock = 1\nworkers = {workers}\n{TWO}")?;
    let mut site = site_of_two(alloc)?;
    let station = made_over(rt, alloc, config.as_str(), &mut site)?;
    let store = image(alloc, &station)?;
    let mut site = site_of_two(alloc)?;
    let station = MomentStation::new(alloc, store, Vec::new(alloc));
    run_over(
        rt,
        word,
        config.as_str(),
        &mut site,
        station,
        4000,
        &OpenGate,
    )
}

const HELD: &str = "held north 16
held south 16
held north 32
held south 17
held north 40
";

#[test]
fn two_gauges_are_watched_by_any_number_of_workers(rt: HostRuntime) -> Result<(), Fail> {
    let alloc = rt.alloc();
    let counted = run_two(&rt, Word::Count, 1)?;
    assert_eq!(rt; counted.status, Status::Done);
    assert_eq!(rt; counted.station.told(), HELD.as_bytes());
    let gauges = [
        ("north", [0, 16, 32, 40].as_slice()),
        ("south", [0, 16, 17].as_slice()),
    ];
    for workers in 1..9u8 {
        let run = run_two(&rt, Word::Watch, workers)?;
        assert_eq!(rt; run.status, Status::Done);
        assert_eq!(rt; run.out.written(), counted.out.written());
        check_told(&rt, alloc, run.station.told(), HELD, &gauges)?;
    }
    Ok(())
}
