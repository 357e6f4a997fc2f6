use calibration::{Classifier, Gain, Grid};
use outside::BytesSource;
use recount::{RecountFault, What, count_again, first_difference};
use segment::Segment;
use std::alloc::{AllocError, Global};
use std::process::Abort;
use std::test::Fail;

const MISSING: i32 = i32::MIN;

const REFUSED: i32 = 1_000_000;

// The standard's own example, and the same with one peak lower.
const EXAMPLE: [i32; 9] = [-2, 1, -3, 5, -1, 3, -4, 4, -2];

const LOWER: [i32; 9] = [-2, 1, -3, 5, -1, 2, -4, 4, -2];

fn grid(rt: &impl Abort) -> Grid {
    Grid::new(16, 2, -8000, 8).expect(rt, "the grid of the example")
}

fn gain(rt: &impl Abort) -> Gain {
    Gain::new(1000, 1, 0).expect(rt, "a gain of one MPa")
}

fn source(alloc: Global, raws: &[i32], failing: &[u64]) -> Result<BytesSource, AllocError> {
    let mut bytes = Vec::new(alloc);
    for raw in raws {
        bytes.extend_from_slice(&raw.to_le_bytes())?;
    }
    Ok(BytesSource::new(bytes, 7, failing.to_vec(alloc)?))
}

// The half units of the example by pair of levels, from the matrix in the standard's words.
#[test]
fn the_example_is_counted_again(rt: HostRuntime) -> Result<(), Fail> {
    let mut src = source(rt.alloc(), &EXAMPLE, &[])?;
    let found = count_again(rt.alloc(), &mut src, &gain(&rt), &grid(&rt), 9).expect(
        &rt,
        "nine samples",
    );
    assert_eq!(rt; (found.counts.samples, found.counts.used), (9, 9));
    for (lo, hi, halves) in [
        (4, 12, 1),
        (4, 13, 1),
        (5, 9, 1),
        (5, 13, 1),
        (6, 9, 1),
        (6, 12, 1),
        (7, 11, 2),
        (7, 12, 0),
    ] {
        assert_eq!(rt; found.pairs.tally().get(lo, hi), halves, "of {lo} and {hi}");
    }
    assert_eq!(rt; found.pairs.tally().total(), 8);
    Ok(())
}

// What a segment holds, what the recording has, and the first difference.
#[test]
fn the_first_difference_is_told(rt: HostRuntime) -> Result<(), Fail> {
    let mut without = EXAMPLE;
    without[8] = MISSING;
    let mut outside = EXAMPLE;
    outside[8] = REFUSED;
    let rows: [(&[i32], &[i32], Option<(What, u64, u64)>); 6] = [
        (&EXAMPLE, &EXAMPLE, None),
        (&without, &EXAMPLE, Some((What::Used, 8, 9))),
        (&without, &outside, Some((What::Missing, 1, 0))),
        (&EXAMPLE[..8], &outside, Some((What::Refused, 0, 1))),
        (&LOWER, &EXAMPLE, Some((What::Cell(7, 10), 2, 0))),
        (&EXAMPLE, &LOWER, Some((What::Cell(7, 10), 0, 2))),
    ];
    let (grid, gain) = (grid(&rt), gain(&rt));
    let classifier = Classifier::new(&gain, &grid);
    for (held, recorded, expected) in rows {
        let mut segment = Segment::new(rt.alloc(), &grid, 0, 0, 9)?;
        assert!(rt; held.len() <= 9 && recorded.len() <= 9);
        segment.count_block(held, &classifier, &mut [0; 9]);
        let mut src = source(rt.alloc(), recorded, &[])?;
        let samples = recorded.len() as u64;
        let found = count_again(rt.alloc(), &mut src, &gain, &grid, samples).expect(
            &rt,
            "as many samples as there are",
        );
        assert!(rt; found.pairs.tally().classes() == segment.grid().classes());
        let difference = first_difference(&segment, &found);
        assert_eq!(rt; difference.map(|d| (d.what, d.held, d.found)), expected);
    }
    Ok(())
}

// Too few samples, and a take that fails before or behind the last byte that is asked for.
#[test]
fn samples_that_are_not_there(rt: HostRuntime) -> Result<(), Fail> {
    for (samples, failing, expected) in [
        (9, 99, None),
        (10, 99, Some(RecountFault::Fewer { there: 9 })),
        (9, 2, Some(RecountFault::ReadFault)),
        (0, 0, None),
    ] {
        let mut src = source(rt.alloc(), &EXAMPLE, &[failing])?;
        let found = count_again(rt.alloc(), &mut src, &gain(&rt), &grid(&rt), samples);
        assert_eq!(rt; found.err(), expected);
    }
    Ok(())
}
