use crate::sites::{EXAMPLE, EXAMPLE_REPORT, Word, count, image, made, recording_of, run_at};
use outside::OpenGate;
use outside::station::MomentStation;
use status::Status;
use std::process::Abort;
use std::sync::Wait;
use std::test::Fail;
use std::thread::Threads;

#[test]
fn an_output_without_room(rt: HostRuntime) -> Result<(), Fail> {
    let alloc = rt.alloc();
    let file = recording_of(alloc, 0x11, EXAMPLE)?;
    let none = Vec::new(alloc);
    let run = run_at(
        &rt,
        Word::Count,
        file,
        made(&rt, alloc)?,
        none,
        20,
        &OpenGate,
    )?;
    assert_eq!(rt; run.status, Status::WriteFault);
    assert_eq!(rt; run.station.told(), b"held G1 9\nwrite fault\n".as_slice());
    assert!(rt; EXAMPLE_REPORT.as_bytes().starts_with(run.out.written()));
    Ok(())
}

// Whether a run over the example, of which this call of the station fails, doesn't come so far.
fn check_call<R: Abort + AllocGlobal + Threads + Wait + Sync>(
    rt: &R,
    word: Word,
    call: u64,
) -> Result<bool, Fail> {
    let alloc = rt.alloc();
    let file = recording_of(alloc, 0x11, EXAMPLE)?;
    let failing = vec![in alloc; call]?;
    let run = run_at(rt, word, file, made(rt, alloc)?, failing, 2000, &OpenGate)?;
    if run.status == Status::Done {
        assert_eq!(rt; run.out.written(), EXAMPLE_REPORT.as_bytes());
        return Ok(true);
    }
    assert_eq!(rt; run.status, Status::DiskFault, "{word:?}, call {call}");
    assert_eq!(rt; run.out.written(), b"".as_slice());
    // What was left is counted to its end.
    let file = recording_of(alloc, 0x11, EXAMPLE)?;
    let again = count(rt, file, image(alloc, &run.station)?)?;
    assert_eq!(rt;
        again.out.written(),
        EXAMPLE_REPORT.as_bytes(),
        "{word:?}, after call {call}"
    );
    Ok(false)
}

// The first call whose failure isn't met, of a run over the example.
fn calls_of<R: Abort + AllocGlobal + Threads + Wait + Sync>(
    rt: &R,
    word: Word,
) -> Result<u64, Fail> {
    for call in 0..100u64 {
        if check_call(rt, word, call)? {
            return Ok(call);
        }
    }
    Err(Fail::new("each of a hundred calls fails"))
}

// Each call of the station fails once; the first run that reaches none of them ends well. A `watch`
// makes one more for each line that it tells of its watcher, which are one or two.
#[test]
fn every_call_of_the_station_may_fail(rt: HostRuntime) -> Result<(), Fail> {
    let counted = calls_of(&rt, Word::Count)?;
    assert!(rt; counted >= 9 && counted < 90);
    let watched = calls_of(&rt, Word::Watch)?;
    assert!(rt; watched == counted + 1 || watched == counted + 2);
    Ok(())
}
