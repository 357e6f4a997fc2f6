use count_workers::gauge_ring::{MAX_PLACES, ring};
use std::test::Fail;

#[test]
fn items_come_out_as_they_went_in(rt: HostRuntime) -> Result<(), Fail> {
    let (mut feeder, mut taker) = ring(rt.alloc(), 2)?;
    assert_eq!(rt; feeder.feed(b'a'), Ok(()));
    assert_eq!(rt; feeder.feed(b'b'), Ok(()));
    assert_eq!(rt; feeder.feed(b'c'), Err(b'c'));
    assert_eq!(rt; taker.settle(&mut feeder), 2);
    for item in [Some(b'a'), Some(b'b'), None] {
        assert_eq!(rt; taker.take(), item);
    }
    // The places are free again, also where nobody settles.
    for item in 0..9 {
        assert_eq!(rt; feeder.feed(item), Ok(()));
        assert_eq!(rt; taker.take(), Some(item));
    }
    Ok(())
}

#[test]
fn a_ring_has_up_to_1024_places(rt: HostRuntime) -> Result<(), Fail> {
    for places in [1, 17, MAX_PLACES] {
        let (mut feeder, mut taker) = ring(rt.alloc(), places)?;
        for item in 0..places {
            assert_eq!(rt; feeder.feed(item), Ok(()));
        }
        assert_eq!(rt; feeder.feed(places), Err(places));
        assert_eq!(rt; taker.settle(&mut feeder), places);
    }
    Ok(())
}
