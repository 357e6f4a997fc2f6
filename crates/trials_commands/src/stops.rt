use crate::made::{MADE_REPORT, made_recording};
use crate::sites::{Word, count, held, made, run_at, run_by};
use outside::OpenGate;
use outside::station::Torn;
use status::Status;
use std::process::Abort;
use std::sync::Wait;
use std::test::Fail;
use std::thread::Threads;

// The last number in these lines. A round has 64 samples.
fn last_held(told: &[u8]) -> u64 {
    if told.starts_with(b"held G1 64\nheld G1 100\n") {
        100
    } else if told.starts_with(b"held G1 64\n") {
        64
    } else {
        0
    }
}

// The last number that a command acknowledges in its first calls of the station, so many: the next
// one fails.
fn told_by<R: Abort + AllocGlobal + Threads + Wait + Sync>(
    rt: &R,
    word: Word,
    calls: u64,
) -> Result<u64, Fail> {
    let alloc = rt.alloc();
    let file = made_recording(rt, alloc)?;
    let failing = vec![in alloc; calls]?;
    let run = run_at(rt, word, file, made(rt, alloc)?, failing, 2000, &OpenGate)?;
    Ok(last_held(run.station.told()))
}

// What is left holds at least what was told, and is counted to its end.
fn check_left<R: Abort + AllocGlobal + Threads + Wait + Sync>(
    rt: &R,
    left: Vec<u8>,
    told: u64,
    calls: u64,
) -> Result<(), Fail> {
    let alloc = rt.alloc();
    let kept = held(alloc, left.as_slice().to_vec(alloc)?)?;
    assert!(rt; kept >= told, "after {calls} calls");
    let again = count(rt, made_recording(rt, alloc)?, left)?;
    assert_eq!(rt; again.status, Status::Done, "after {calls} calls");
    assert_eq!(rt; again.out.written(), MADE_REPORT.as_bytes());
    Ok(())
}

fn check_stops<R: Abort + AllocGlobal + Threads + Wait + Sync>(
    rt: &R,
    word: Word,
) -> Result<(), Fail> {
    let alloc = rt.alloc();
    let whole = run_by(rt, word, made_recording(rt, alloc)?, made(rt, alloc)?)?;
    assert_eq!(rt; whole.status, Status::Done);
    assert_eq!(rt; whole.out.written(), MADE_REPORT.as_bytes());
    assert_eq!(rt; last_held(whole.station.told()), 100);
    for calls in 0..whole.station.calls() + 1 {
        let told = told_by(rt, word, calls)?;
        for torn in [Torn::Old, Torn::New, Torn::Fill(1)] {
            assert!(rt; calls <= whole.station.calls());
            let left = whole.station.crash(alloc, calls, torn)?;
            check_left(rt, left, told, calls)?;
        }
    }
    Ok(())
}

#[test]
fn every_stop_of_a_count(rt: HostRuntime) -> Result<(), Fail> {
    check_stops(&rt, Word::Count)
}

#[test]
fn every_stop_of_a_watch(rt: HostRuntime) -> Result<(), Fail> {
    check_stops(&rt, Word::Watch)
}
