use crate::stores::{
    FIRST, NEXT, Refusal, WHOLE, assert_whole, held, image, made, made_in, put,
    put_after_a_failure, setup, stored, stored_in,
};
use outside::station::{MomentStation, Torn};
use segment_store::{PutFault, ResumeFault, Store};
use std::alloc::Global;
use std::process::Abort;
use std::test::Fail;
use store_bytes::segment_bytes::Layout;

const TEARS: [Torn; 4] = [Torn::Old, Torn::New, Torn::Fill(1), Torn::Fill(255)];

// The store of one gauge before its first body.
const MADE: &[u8] = &[
    1, 0x53, 0x47, 0x53, 0x54, 2, 0, 1, 0, 16, 0, 2, // ready, SGST, version, gauges, classes, w2
    0xff, 0xff, 0xff, 0xff, 0xff, 0xff, 0xe0, 0xc0, 0, 8, // low, reference
    0x11, 0x11, 0x11, 0x11, 0x11, 0x11, 0x11, 0x11, 0x11, 0x11, 0x11, 0x11, 0x11, 0x11, 0x11, 0x11,
    0, 0, 0x27, 0x10, // period
    0, 0, 0, 0, 0, 0, 3, 0xe8, 0, 0, 0, 1, 0, 0, 0, 0, 0, 0, 0, 0, // gain
    0, // gate
];

#[test]
fn a_store_is_made_once(rt: HostRuntime) -> Result<(), Fail> {
    let station = made(rt.alloc(), 1)?;
    assert_eq!(rt; image(rt.alloc(), &station)?.as_slice(), MADE);
    Ok(())
}

// At each moment there is the whole store, or none.
#[test]
fn every_moment_of_making(rt: HostRuntime) -> Result<(), Fail> {
    let alloc = rt.alloc();
    let station = made(alloc, 1)?;
    for calls in 0..station.calls() + 1 {
        for torn in TEARS {
            let left = station.crash(alloc, calls, torn)?;
            let expected = if left.as_slice() == MADE {
                Ok(0)
            } else {
                Err(ResumeFault::NotAStore)
            };
            assert_eq!(rt; held(alloc, left)?, expected, "{calls} calls");
        }
    }
    Ok(())
}

#[test]
fn a_store_has_the_layout_of_its_version(rt: HostRuntime) -> Result<(), Fail> {
    for (version, layout) in [(1, Layout::One), (2u8, Layout::Two)] {
        let bytes = stored_in(&rt, rt.alloc(), version, &[WHOLE])?;
        assert_whole(&rt, rt.alloc(), bytes, layout)?;
    }
    Ok(())
}

// A store of this version with the first part, into which the next one is put.
fn with_next(rt: &impl Abort, alloc: Global, version: u8) -> Result<MomentStation, Fail> {
    let mut station = made_in(rt, alloc, version)?;
    put(rt, alloc, 1, &mut station, FIRST)??;
    put(rt, alloc, 1, &mut station, NEXT)??;
    Ok(station)
}

// Up to where is held after each tear, where so many calls of the put are left.
fn held_before(left: u64) -> [u64; 4] {
    match left {
        0 => [9, 9, 9, 9],
        // The gate is being opened.
        1 => [4, 9, 9, 4],
        _ => [4, 4, 4, 4],
    }
}

// The next part is put by a write, a sync, a write and a sync.
#[test]
fn every_moment_of_a_put(rt: HostRuntime) -> Result<(), Fail> {
    let alloc = rt.alloc();
    for version in 1..3u8 {
        let station = with_next(&rt, alloc, version)?;
        for left in 0..5 {
            assert!(rt; left <= station.calls());
            for (torn, end) in TEARS.into_iter().zip(held_before(left)) {
                let bytes = station.crash(alloc, station.calls() - left, torn)?;
                assert_eq!(rt; held(alloc, bytes)?, Ok(end), "{left} calls before the end");
            }
        }
    }
    Ok(())
}

// A put was stopped between its first sync and the opening of the gate, and is made again over what
// the stop left.
fn put_after_a_stop(
    rt: &impl Abort,
    alloc: Global,
    stopped: &MomentStation,
    torn: Torn,
) -> Result<Vec<u8>, Fail> {
    assert!(rt; stopped.calls() >= 2);
    let left = stopped.crash(alloc, stopped.calls() - 2, torn)?;
    let mut station = MomentStation::new(alloc, left, Vec::new(alloc));
    put(rt, alloc, 1, &mut station, NEXT)??;
    image(alloc, &station)
}

#[test]
fn a_stopped_put_is_made_again(rt: HostRuntime) -> Result<(), Fail> {
    let alloc = rt.alloc();
    for (version, layout) in [(1, Layout::One), (2u8, Layout::Two)] {
        let station = with_next(&rt, alloc, version)?;
        for torn in TEARS {
            let bytes = put_after_a_stop(&rt, alloc, &station, torn)?;
            assert!(rt; bytes.len() > 5 && bytes[5] == version);
            assert_whole(&rt, alloc, bytes, layout)?;
        }
    }
    Ok(())
}

// The station's call of this number fails.
fn with_failure(
    rt: &impl Abort,
    alloc: Global,
    call: u64,
) -> Result<(Result<(), Refusal>, Vec<u8>), Fail> {
    let bytes = stored(rt, alloc, 1, &[FIRST])?;
    let mut station = MomentStation::new(alloc, bytes, vec![in alloc; call]?);
    let answer = put(rt, alloc, 1, &mut station, NEXT)?;
    Ok((answer, image(alloc, &station)?))
}

#[test]
fn every_call_of_the_station_may_fail(rt: HostRuntime) -> Result<(), Fail> {
    let alloc = rt.alloc();
    for call in 0..100 {
        let (answer, bytes) = with_failure(&rt, alloc, call)?;
        if answer.is_ok() {
            assert_eq!(rt; held(alloc, bytes)?, Ok(9));
            return Ok(());
        }
        let resuming = Err(Refusal::Resuming(ResumeFault::DiskFault));
        assert!(rt; answer == resuming || answer == Err(Refusal::Putting(PutFault::DiskFault)));
        let end = held(alloc, bytes)?;
        assert!(rt; end == Ok(4) || end == Ok(9));
    }
    Err(Fail::new("each of a hundred calls fails"))
}

// How many calls resuming takes.
fn calls_of_resuming(rt: &impl Abort, alloc: Global) -> Result<u64, Fail> {
    let bytes = stored(rt, alloc, 1, &[FIRST])?;
    let mut station = MomentStation::new(alloc, bytes, Vec::new(alloc));
    let _store = Store::resume(alloc, &mut station, &setup(alloc, 1)?)?;
    Ok(station.calls())
}

#[test]
fn after_a_failed_put_a_store_is_shut(rt: HostRuntime) -> Result<(), Fail> {
    let alloc = rt.alloc();
    let call = calls_of_resuming(&rt, alloc)?;
    let bytes = stored(&rt, alloc, 1, &[FIRST])?;
    let mut station = MomentStation::new(alloc, bytes, vec![in alloc; call]?);
    let again = put_after_a_failure(&rt, alloc, &mut station, NEXT)?;
    assert_eq!(rt; again, Ok(Some(PutFault::Shut)));
    Ok(())
}
