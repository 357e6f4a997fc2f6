use crate::bodies::{run_line, two_bodies};
use crate::held_example::{BODY, CONFIG, HEAD, REFUSED, station_of};
use crate::sites::{COMMON, EXAMPLE, EXAMPLE_REPORT, Run, count, held, image, made, recording_of};
use outside::VecSink;
use outside::station::MomentStation;
use segment_store::Damage;
use status::{Status, StoreFault};
use std::sync::Wait;
use std::test::Fail;
use std::thread::Threads;

// What this command does over a store with these bytes.
fn run_over<R: AllocGlobal + Threads + Wait + Sync>(
    rt: &R,
    line: &str,
    config: &str,
    store: Vec<u8>,
) -> Result<Run, Fail> {
    let alloc = rt.alloc();
    let station = MomentStation::new(alloc, store, Vec::new(alloc));
    let out = VecSink::new(alloc, 2000, Vec::new(alloc))?;
    run_line(rt, line, config, station, out)
}

// The copy holds the nine samples in one body, and its report is that of the store.
#[test]
fn a_copy_holds_what_the_store_holds(rt: HostRuntime) -> Result<(), Fail> {
    let alloc = rt.alloc();
    let run = run_over(&rt, "compact", COMMON, two_bodies(&rt)?)?;
    assert_eq!(rt; run.status, Status::Done);
    assert_eq!(rt; run.station.told(), b"".as_slice());
    let copy = run.out.written();
    assert_eq!(rt; copy.len(), 408);
    assert_eq!(rt; held(alloc, copy.to_vec(alloc)?)?, 9);
    let report = run_over(&rt, "report", COMMON, copy.to_vec(alloc)?)?;
    assert_eq!(rt; report.out.written(), EXAMPLE_REPORT.as_bytes());
    Ok(())
}

// A copy that was cut is no store.
#[test]
fn a_front_of_a_copy_is_refused(rt: HostRuntime) -> Result<(), Fail> {
    let alloc = rt.alloc();
    let run = run_over(&rt, "compact", COMMON, two_bodies(&rt)?)?;
    let copy = run.out.written();
    assert!(rt; copy.len() >= 1);
    let cut = run_over(&rt, "report", COMMON, copy[..copy.len() - 1].to_vec(alloc)?)?;
    let damage = Damage::Cut { size: 407 };
    let fault = StoreFault::Damaged { index: 0, damage };
    assert_eq!(rt; cut.status, Status::Store(fault));
    assert_eq!(rt; cut.out.written(), b"".as_slice());
    Ok(())
}

#[test]
fn a_copy_of_a_copy_is_the_same(rt: HostRuntime) -> Result<(), Fail> {
    let alloc = rt.alloc();
    let run = run_over(&rt, "compact", COMMON, two_bodies(&rt)?)?;
    let again = run_over(&rt, "compact", COMMON, run.out.written().to_vec(alloc)?)?;
    assert_eq!(rt; again.out.written(), run.out.written());
    Ok(())
}

// A store of version 1 without a body: its copy has version 2, at place 5, and else the same bytes.
#[test]
fn a_copy_of_a_store_of_version_1(rt: HostRuntime) -> Result<(), Fail> {
    let alloc = rt.alloc();
    let station = station_of(alloc, &[HEAD, &[0]], &[])?;
    let out = VecSink::new(alloc, 2000, Vec::new(alloc))?;
    let run = run_line(&rt, "compact", CONFIG, station, out)?;
    let mut copy = HEAD[..5].to_vec(alloc)?;
    copy.push(2)?;
    copy.extend_from_slice(&HEAD[6..])?;
    copy.push(0)?;
    assert_eq!(rt; run.out.written(), copy.as_slice());
    let with_body = station_of(alloc, &[HEAD, &[1], BODY, &[0]], &[])?;
    let out = VecSink::new(alloc, 2000, Vec::new(alloc))?;
    let run = run_line(&rt, "compact", CONFIG, with_body, out)?;
    assert_eq!(rt; run.status, Status::Done);
    assert_eq!(rt; held(alloc, run.out.written().to_vec(alloc)?)?, 4);
    Ok(())
}

#[test]
fn count_goes_on_over_a_copy(rt: HostRuntime) -> Result<(), Fail> {
    let alloc = rt.alloc();
    let first = count(
        &rt,
        recording_of(alloc, 0x11, &EXAMPLE[..4])?,
        made(&rt, alloc)?,
    )?;
    let copied = run_over(&rt, "compact", COMMON, image(alloc, &first.station)?)?;
    let whole = count(
        &rt,
        recording_of(alloc, 0x11, EXAMPLE)?,
        copied.out.written().to_vec(alloc)?,
    )?;
    assert_eq!(rt; whole.status, Status::Done);
    assert_eq!(rt; whole.station.told(), b"held G1 9\n".as_slice());
    assert_eq!(rt; whole.out.written(), EXAMPLE_REPORT.as_bytes());
    Ok(())
}

#[test]
fn what_is_refused(rt: HostRuntime) -> Result<(), Fail> {
    let alloc = rt.alloc();
    for case in REFUSED {
        let station = station_of(alloc, case.parts, &[case.call])?;
        let out = VecSink::new(alloc, 1000, [case.put].to_vec(alloc)?)?;
        let run = run_line(&rt, "compact", CONFIG, station, out)?;
        assert_eq!(rt; run.status, case.status);
        assert_eq!(rt; run.station.told(), case.line.as_bytes());
    }
    Ok(())
}
