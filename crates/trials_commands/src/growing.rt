use crate::sites::{EXAMPLE, EXAMPLE_REPORT, Word, count, image, made, recording_of, run_by};
use outside::station::Torn;
use status::{RecordingFault, Status};
use std::alloc::Global;
use std::process::Abort;
use std::sync::Wait;
use std::test::Fail;
use std::thread::Threads;

// The store after the first four samples were counted.
fn with_four<R: Abort + AllocGlobal + Threads + Wait + Sync>(rt: &R) -> Result<Vec<u8>, Fail> {
    let alloc = rt.alloc();
    let run = count(
        rt,
        recording_of(alloc, 0x11, &EXAMPLE[..4])?,
        made(rt, alloc)?,
    )?;
    assert_eq!(rt; run.status, Status::Done);
    assert_eq!(rt; run.station.told(), b"held G1 4\n".as_slice());
    image(alloc, &run.station)
}

// The put of the last five is its last four disk calls, and the telling comes behind it.
#[test]
fn a_stop_before_the_gate_is_opened(rt: HostRuntime) -> Result<(), Fail> {
    let alloc = rt.alloc();
    let whole = count(&rt, recording_of(alloc, 0x11, EXAMPLE)?, with_four(&rt)?)?;
    assert_eq!(rt; whole.station.told(), b"held G1 9\n".as_slice());
    assert!(rt; whole.station.calls() >= 3);
    let left = whole
        .station
        .crash(alloc, whole.station.calls() - 3, Torn::New)?;
    let again = count(&rt, recording_of(alloc, 0x11, EXAMPLE)?, left)?;
    assert_eq!(rt; again.status, Status::Done);
    assert_eq!(rt; again.station.told(), b"held G1 9\n".as_slice());
    assert_eq!(rt; again.out.written(), EXAMPLE_REPORT.as_bytes());
    Ok(())
}

#[test]
fn nothing_new_tells_nothing(rt: HostRuntime) -> Result<(), Fail> {
    let alloc = rt.alloc();
    let whole = count(&rt, recording_of(alloc, 0x11, EXAMPLE)?, with_four(&rt)?)?;
    let again = count(
        &rt,
        recording_of(alloc, 0x11, EXAMPLE)?,
        image(alloc, &whole.station)?,
    )?;
    assert_eq!(rt; again.status, Status::Done);
    assert_eq!(rt; again.station.told(), b"".as_slice());
    assert_eq!(rt; again.out.written(), EXAMPLE_REPORT.as_bytes());
    Ok(())
}

// Three samples and two bytes. Then the fourth sample is whole.
fn check_torn<R: Abort + AllocGlobal + Threads + Wait + Sync>(
    rt: &R,
    word: Word,
) -> Result<(), Fail> {
    let alloc = rt.alloc();
    let mut file = recording_of(alloc, 0x11, &EXAMPLE[..4])?;
    assert!(rt; file.len() == 48);
    file.truncate(46);
    let run = run_by(rt, word, file, made(rt, alloc)?)?;
    assert_eq!(rt; run.status, Status::Torn { gauge: 0, bytes: 2 });
    assert_eq!(rt;
        run.station.told(),
        b"held G1 3\nrecording G1: ends in 2 odd bytes\n".as_slice()
    );
    assert_eq!(rt; run.out.written(), b"".as_slice());
    let next = count(
        rt,
        recording_of(alloc, 0x11, &EXAMPLE[..4])?,
        image(alloc, &run.station)?,
    )?;
    assert_eq!(rt; next.status, Status::Done);
    assert_eq!(rt; next.station.told(), b"held G1 4\n".as_slice());
    Ok(())
}

// A `watch` tells then nothing of what its watcher saw.
#[test]
fn a_torn_end_holds_all_whole_samples(rt: HostRuntime) -> Result<(), Fail> {
    check_torn(&rt, Word::Count)?;
    check_torn(&rt, Word::Watch)
}

fn check_refused<R: Abort + AllocGlobal + Threads + Wait + Sync>(
    rt: &R,
    file: Vec<u8>,
    fault: RecordingFault,
    told: &str,
) -> Result<(), Fail> {
    let alloc = rt.alloc();
    let whole = count(rt, recording_of(alloc, 0x11, EXAMPLE)?, made(rt, alloc)?)?;
    let store = image(alloc, &whole.station)?;
    for word in [Word::Count, Word::Watch] {
        let file = file.as_slice().to_vec(alloc)?;
        let run = run_by(rt, word, file, store.as_slice().to_vec(alloc)?)?;
        assert_eq!(rt; run.status, Status::Recording { gauge: 0, fault });
        assert_eq!(rt; run.station.told(), told.as_bytes());
        assert_eq!(rt; image(alloc, &run.station)?.as_slice(), store.as_slice());
    }
    Ok(())
}

#[test]
fn another_recording_or_a_shorter_one(rt: HostRuntime) -> Result<(), Fail> {
    let alloc = rt.alloc();
    let id = RecordingFault::Id {
        kept: [0x11; 16],
        found: [0x22; 16],
    };
    check_refused(
        &rt,
        recording_of(alloc, 0x22, EXAMPLE)?,
        id,
        "recording G1: id was 11111111111111111111111111111111, is 22222222222222222222222222222222\n",
    )?;
    let fewer = RecordingFault::Fewer { held: 9, there: 4 };
    let file = recording_of(alloc, 0x11, &EXAMPLE[..4])?;
    check_refused(&rt, file, fewer, "recording G1: 9 held, 4 there\n")
}
