use crate::made::{MADE_REPORT, made_recording};
use crate::sites::{COMMON, Run, Word, count, held, image, made, run_over};
use outside::station::MomentStation;
use outside::{MapSite, OpenGate};
use status::Status;
use std::collections::BTreeMap;
use std::process::Abort;
use std::sync::Wait;
use std::test::Fail;
use std::thread::Threads;

// The samples that are whole before this take. The head of 32 bytes is read in seven takes of at
// most five, and a block of 16 bytes in four, of which each ends one sample.
fn whole_before(take: u64) -> u64 {
    take.saturating_sub(7).min(100)
}

// Runs a command over the made recording, of which this take fails.
fn with_failure<R: Abort + AllocGlobal + Threads + Wait + Sync>(
    rt: &R,
    word: Word,
    take: u64,
) -> Result<Run, Fail> {
    let alloc = rt.alloc();
    let mut files = BTreeMap::new(alloc);
    let name = String::from_str(alloc, "g1.sgrc")?;
    files.insert(name, made_recording(rt, alloc)?)?;
    let site = MapSite::new(alloc, files, 5, Vec::new(alloc));
    let name = String::from_str(alloc, "g1.sgrc")?;
    let mut site = site.failing_reads(name, vec![in alloc; take]?);
    let station = MomentStation::new(alloc, made(rt, alloc)?, Vec::new(alloc));
    run_over(rt, word, COMMON, &mut site, station, 2000, &OpenGate)
}

// All samples before the take are held, nothing is printed, and the rest is counted by the next.
fn check_failed<R: Abort + AllocGlobal + Threads + Wait + Sync>(
    rt: &R,
    run: &Run,
    take: u64,
) -> Result<(), Fail> {
    let alloc = rt.alloc();
    assert_eq!(rt; run.status, Status::ReadFault, "take {take}");
    assert_eq!(rt; run.out.written(), b"".as_slice());
    let kept = held(alloc, image(alloc, &run.station)?)?;
    assert_eq!(rt; kept, whole_before(take), "take {take}");
    let again = count(rt, made_recording(rt, alloc)?, image(alloc, &run.station)?)?;
    assert_eq!(rt; again.status, Status::Done, "take {take}");
    assert_eq!(rt; again.out.written(), MADE_REPORT.as_bytes());
    Ok(())
}

fn check_each<R: Abort + AllocGlobal + Threads + Wait + Sync>(
    rt: &R,
    word: Word,
) -> Result<(), Fail> {
    for take in 0..108 {
        check_failed(rt, &with_failure(rt, word, take)?, take)?;
    }
    // The last of them finds the end.
    let run = with_failure(rt, word, 108)?;
    assert_eq!(rt; run.status, Status::Done);
    assert_eq!(rt; run.out.written(), MADE_REPORT.as_bytes());
    Ok(())
}

#[test]
fn every_failing_read_of_a_count(rt: HostRuntime) -> Result<(), Fail> {
    check_each(&rt, Word::Count)
}

#[test]
fn every_failing_read_of_a_watch(rt: HostRuntime) -> Result<(), Fail> {
    check_each(&rt, Word::Watch)
}
