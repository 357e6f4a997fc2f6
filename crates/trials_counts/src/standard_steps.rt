use std::alloc::AllocError;
use std::test::Fail;
use turning_points::three_point::{HalfUnits, Range, Run, astm};

/// Points, and the ranges that the steps of the standard count, as (lo, hi, half units) in their
/// order.
type Row = (&'static [u16], &'static [(u16, u16, u8)]);

// Counted by hand from the steps.
const ROWS: &[Row] = &[
    (&[], &[]),
    (&[10], &[]),
    (&[0, 15], &[(0, 15, 1)]),
    (&[8, 13, 8], &[(8, 13, 1), (8, 13, 1)]),
    (&[8, 13, 8, 13], &[(8, 13, 1), (8, 13, 1), (8, 13, 1)]),
    (&[8, 13, 9, 14], &[(9, 13, 2), (8, 14, 1)]),
    // Equal ranges X and Y are counted, and the starting point moves: tables of half units do not
    // tell.
    (&[4, 3, 4, 2], &[(3, 4, 1), (3, 4, 1), (2, 4, 1)]),
    (
        &[5, 8, 6, 7, 4, 9, 2],
        &[(6, 7, 2), (5, 8, 1), (4, 8, 1), (4, 9, 1), (2, 9, 1)],
    ),
    // The standard's own example, moved up by eight: ranges 3, 4, 4, 8, 9, 8, 6, of which the third
    // is a cycle.
    (
        &[6, 9, 5, 13, 7, 11, 4, 12, 6],
        &[
            (6, 9, 1),
            (5, 9, 1),
            (7, 11, 2),
            (5, 13, 1),
            (4, 13, 1),
            (4, 12, 1),
            (6, 12, 1),
        ],
    ),
];

#[test]
fn counts_as_the_standard_does(rt: HostRuntime) -> Result<(), Fail> {
    for &(points, expected) in ROWS {
        let ranges = astm(rt.alloc(), points)?;
        assert_eq!(rt; ranges.as_slice().len(), expected.len(), "over {points:?}");
        for (range, &(lo, hi, halves)) in ranges.as_slice().iter().zip(expected) {
            assert_eq!(rt; *range, Range { lo, hi, halves }, "over {points:?}");
        }
    }
    Ok(())
}

#[test]
fn adds_half_units_by_range(rt: HostRuntime) -> Result<(), Fail> {
    // The standard's example, whose table has half cycles at 3, 4, 6, 8 and 9, two of them at 8,
    // and a cycle at 4.
    let ranges = astm(rt.alloc(), &[6, 9, 5, 13, 7, 11, 4, 12, 6])?;
    let mut half_units = [7; 14];
    ranges.half_units(&mut half_units);
    assert_eq!(rt; half_units, [0, 0, 0, 1, 3, 0, 1, 0, 2, 1, 0, 0, 0, 0]);
    Ok(())
}

#[test]
fn counts_points_that_come_one_at_a_time(rt: HostRuntime) -> Result<(), AllocError> {
    let mut half_units = HalfUnits::new(rt.alloc(), 14)?;
    let mut run = Run::new(rt.alloc(), 14)?;
    run.push(6, &mut half_units);
    run.push(9, &mut half_units);
    run.push(5, &mut half_units);
    run.push_all(&[13, 7, 11], &mut half_units);
    run.push_all(&[4, 12, 6], &mut half_units);
    run.finish(&mut half_units);
    let expected = [0, 0, 0, 1, 3, 0, 1, 0, 2, 1, 0, 0, 0, 0];
    assert_eq!(rt; half_units.as_slice(), expected.as_slice());
    Ok(())
}
