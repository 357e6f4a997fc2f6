use crate::stores::{NEXT, Part, WHOLE, held, stored, stored_in};
use segment::JoinRefusal;
use segment_store::{Damage, ResumeFault};
use std::alloc::Global;
use std::process::Abort;
use std::test::Fail;
use store_bytes::segment_bytes::BytesFault;

// Four samples, whose body has 158 bytes.
const FOUR: Part = Part {
    gauge: 0,
    from: 0,
    raws: &[0, 5, 0, 5],
};

fn damaged(index: u64, damage: Damage) -> Result<u64, ResumeFault> {
    Err(ResumeFault::Damaged { index, damage })
}

// So many bytes of a store in which a body is cut, and of others that have no head.
const CUTS: &[u64] = &[63, 66, 257];

const NO_HEADS: &[usize] = &[0, 21, 62];

fn sized(rt: &impl Abort, alloc: Global, size: usize) -> Result<Result<u64, ResumeFault>, Fail> {
    let mut bytes = stored(rt, alloc, 1, &[FOUR])?;
    bytes.resize(size, 1)?;
    held(alloc, bytes)
}

#[test]
fn a_store_is_cut_or_padded(rt: HostRuntime) -> Result<(), Fail> {
    for &size in NO_HEADS {
        let found = sized(&rt, rt.alloc(), size)?;
        assert_eq!(rt; found, Err(ResumeFault::NotAStore), "{size} bytes");
    }
    for &size in CUTS {
        let found = sized(&rt, rt.alloc(), size as usize)?;
        assert_eq!(rt; found, damaged(0, Damage::Cut { size }), "{size} bytes");
    }
    for size in [258, 300] {
        assert_eq!(rt; sized(&rt, rt.alloc(), size)?, Ok(4), "{size} bytes");
    }
    Ok(())
}

// The closed gate behind the only body is not there.
#[test]
fn a_store_is_cut_by_a_byte(rt: HostRuntime) -> Result<(), Fail> {
    for version in 1..3u8 {
        for (part, size) in [(FOUR, 257), (WHOLE, 407u64)] {
            let mut bytes = stored_in(&rt, rt.alloc(), version, &[part])?;
            assert_eq!(rt; bytes.len() as u64, size + 1, "version {version}");
            bytes.truncate(size as usize);
            assert_eq!(rt; held(rt.alloc(), bytes)?, damaged(0, Damage::Cut { size }));
        }
    }
    Ok(())
}

// The first bytes of a store, and those of another from one place to a second.
fn spliced(
    rt: &impl Abort,
    alloc: Global,
    store: &[u8],
    size: usize,
    other: &[u8],
    place: usize,
    end: usize,
) -> Result<Vec<u8>, Fail> {
    assert!(rt; size <= store.len());
    assert!(rt; place <= end && end <= other.len());
    let mut bytes = store[..size].to_vec(alloc)?;
    bytes.extend_from_slice(&other[place..end])?;
    Ok(bytes)
}

#[test]
fn bodies_stand_in_another_order(rt: HostRuntime) -> Result<(), Fail> {
    let alloc = rt.alloc();
    let first = stored(&rt, alloc, 1, &[FOUR])?;
    let both = stored(&rt, alloc, 1, &[FOUR, NEXT])?;
    let second_alone = spliced(&rt, alloc, &first, 63, &both, 258, both.len())?;
    let next = JoinRefusal::NotNext { to: 0, from: 4 };
    assert_eq!(rt; held(alloc, second_alone)?, damaged(0, Damage::Join(next)));
    Ok(())
}

#[test]
fn a_body_stands_twice(rt: HostRuntime) -> Result<(), Fail> {
    let alloc = rt.alloc();
    let both = stored(&rt, alloc, 1, &[FOUR, NEXT])?;
    let first_twice = spliced(&rt, alloc, &both, 258, &both, 63, 258)?;
    let again = JoinRefusal::NotNext { to: 4, from: 0 };
    assert_eq!(rt; held(alloc, first_twice)?, damaged(1, Damage::Join(again)));
    Ok(())
}

#[test]
fn a_body_is_of_another_gauge(rt: HostRuntime) -> Result<(), Fail> {
    let alloc = rt.alloc();
    let other = Part { gauge: 1, ..FOUR };
    let two_gauges = stored(&rt, alloc, 2, &[other])?;
    let one_gauge = stored(&rt, alloc, 1, &[FOUR])?;
    let foreign = spliced(
        &rt,
        alloc,
        &one_gauge,
        63,
        &two_gauges,
        103,
        two_gauges.len(),
    )?;
    assert_eq!(rt; held(alloc, foreign)?, damaged(0, Damage::Gauge(1)));
    Ok(())
}

// Behind the residue, at byte 64, the body in rows has `0001 0008 0001 000d` and so on. As cells
// these are 65,544 of 12 bytes from byte 68 on, of which the eighth ends at byte 164. The body in
// cells has `00000001 0008 000d` there. As rows these are none, then one crossing, one peak, two
// valleys and 12 ranges of 10 bytes from byte 114 on, of which the fifth ends at byte 164 too.
#[test]
fn a_body_is_of_another_layout(rt: HostRuntime) -> Result<(), Fail> {
    let short = Damage::Bytes(BytesFault::Short {
        need: 164,
        have: 158,
    });
    for version in 1..3u8 {
        let mut bytes = stored_in(&rt, rt.alloc(), version, &[FOUR])?;
        assert!(rt; bytes.len() > 5);
        bytes[5] = 3 - version;
        let answer = held(rt.alloc(), bytes)?;
        assert_eq!(rt; answer, damaged(0, short), "version {version}");
    }
    Ok(())
}
