ghost use Rattle.std.specs.Prelude.{◌≡◌};
ghost use Rattle.tally.specs.Counts.{HasGreatestRoom};
ghost use Rattle.turning_points.specs.Points.{points as points_of};

use four_point::Reducer;
use four_point::residue_join::{PairCounter, join_residue};
use std::alloc::{AllocError, Global};
use std::process::Abort;
use std::test::Fail;
use tally::Tally;
use turning_points::keep_points;
use turning_points::three_point::{Range, Run, astm};

const CLASSES: u16 = 16;

/// The parts of a history one after another, the points of the whole, its cycles as (lower level,
/// higher level, count), and its residue.
type Row = (
    &'static [&'static [u16]],
    &'static [u16],
    &'static [(u16, u16, u64)],
    &'static [u16],
);

// Points, cycles and residues by hand from the rules of the four-point method, over the whole
// history.
const ROWS: &[Row] = &[
    // The history of the standard's own example, moved up by eight.
    (
        &[&[6, 9, 5, 13], &[7, 11, 4, 12, 6]],
        &[6, 9, 5, 13, 7, 11, 4, 12, 6],
        &[(7, 11, 1)],
        &[6, 9, 5, 13, 4, 12, 6],
    ),
    (
        &[&[6, 9, 5, 13, 7], &[11], &[4, 12, 6]],
        &[6, 9, 5, 13, 7, 11, 4, 12, 6],
        &[(7, 11, 1)],
        &[6, 9, 5, 13, 4, 12, 6],
    ),
    // A plateau over both cuts is one point.
    (&[&[8, 13], &[13, 13], &[8]], &[8, 13, 8], &[], &[8, 13, 8]),
    // The last level of the first part is no point of the whole.
    (
        &[&[8, 13, 11], &[9, 14]],
        &[8, 13, 9, 14],
        &[(9, 13, 1)],
        &[8, 14],
    ),
    (
        &[&[8, 13, 11], &[9], &[14]],
        &[8, 13, 9, 14],
        &[(9, 13, 1)],
        &[8, 14],
    ),
];

// Each pair has room.
fn assert_room(rt: &impl Abort, tally: &Tally)
    ensures { HasGreatestRoom tally.now }
{
    let most = tally.classes() as u32 * (tally.classes() as u32 - 1) / 2;
    assert!(rt; tally.room() == most);
}

fn reduced(
    rt: &impl Abort,
    alloc: Global,
    part: &[u16],
    tally: &mut Tally,
) -> Result<Reducer, AllocError> {
    let mut reducer = Reducer::new(alloc, CLASSES)?;
    for &level in part {
        assert!(rt; level < reducer.classes());
        assert!(rt; reducer.classes() == tally.classes());
        assert!(rt; tally.total() < 1000);
        assert!(rt; reducer.residue().len() < 1000);
        assert_room(rt, tally);
        reducer.push(level, tally);
    }
    Ok(reducer)
}

fn join(rt: &impl Abort, left: &mut Reducer, right: &Reducer, tally: &mut Tally) {
    assert!(rt; left.classes() == right.classes());
    assert!(rt; left.classes() == tally.classes());
    assert!(rt; tally.total() < 1000);
    assert!(rt; left.residue().len() < 1000);
    assert!(rt; right.residue().len() < 1000);
    assert_room(rt, tally);
    join_residue(left, right.residue(), tally);
}

// The first two parts are joined first.
fn joined_from_the_left(
    rt: &impl Abort,
    alloc: Global,
    parts: &[&[u16]],
    tally: &mut Tally,
) -> Result<Reducer, AllocError> {
    let mut whole = Reducer::new(alloc, CLASSES)?;
    for part in parts {
        let next = reduced(rt, alloc, part, tally)?;
        join(rt, &mut whole, &next, tally);
    }
    Ok(whole)
}

// The last two parts are joined first.
fn joined_from_the_right(
    rt: &impl Abort,
    alloc: Global,
    parts: &[&[u16]],
    tally: &mut Tally,
) -> Result<Reducer, AllocError> {
    let mut whole = Reducer::new(alloc, CLASSES)?;
    for part in parts.iter().rev() {
        let mut front = reduced(rt, alloc, part, tally)?;
        join(rt, &mut front, &whole, tally);
        whole = front;
    }
    Ok(whole)
}

fn add(rt: &impl Abort, tally: &mut Tally, a: u16, b: u16, n: u64) {
    let lo = a.min(b);
    let hi = a.max(b);
    assert!(rt; lo < hi);
    assert!(rt; hi < tally.classes());
    assert!(rt; tally.total() < 1000);
    assert!(rt; n < 1000);
    assert!(rt; tally.cells() < tally.room());
    tally.add(lo, hi, n);
}

// The half units of ranges, pair by pair.
fn halves_of_ranges(rt: &impl Abort, alloc: Global, ranges: &[Range]) -> Result<Tally, AllocError> {
    let mut halves = Tally::new(alloc, CLASSES, 120)?;
    for range in ranges {
        add(rt, &mut halves, range.lo, range.hi, range.halves as u64);
    }
    Ok(halves)
}

// Twice the cycles, and once each two neighbours of the residue.
fn halves_of_result(
    rt: &impl Abort,
    alloc: Global,
    cycles: &Tally,
    residue: &[u16],
) -> Result<Tally, AllocError> {
    let mut halves = Tally::new(alloc, CLASSES, 120)?;
    for _ in 0..2 {
        assert!(rt; halves.classes() == cycles.classes());
        assert!(rt; halves.total() < 1000);
        assert!(rt; cycles.total() < 1000);
        assert_room(rt, &halves);
        halves.merge(cycles);
    }
    for i in 1..residue.len() {
        add(rt, &mut halves, residue[i - 1], residue[i], 1);
    }
    Ok(halves)
}

// These cycles and no others, each counted once.
fn assert_counts(rt: &impl Abort, tally: &Tally, cycles: &[(u16, u16, u64)]) {
    assert_eq!(rt; tally.total(), cycles.len() as u64);
    for &(lo, hi, n) in cycles {
        assert_eq!(rt; tally.get(lo, hi), n, "of {lo} and {hi}");
    }
}

fn assert_equal(rt: &impl Abort, left: &Tally, right: &Tally) {
    for lo in 0..CLASSES {
        for hi in lo + 1..CLASSES {
            assert_eq!(rt; left.get(lo, hi), right.get(lo, hi), "of {lo} and {hi}");
        }
    }
}

// The half units of a whole history, by the standard's own steps.
fn halves_of_points(rt: &impl Abort, alloc: Global, points: &[u16]) -> Result<Tally, AllocError>
    requires { points_of points.now ≡ points.now }
{
    let ranges = astm(alloc, points)?;
    halves_of_ranges(rt, alloc, ranges.as_slice())
}

// What was joined says what the standard's steps say of the whole.
fn assert_halves(
    rt: &impl Abort,
    alloc: Global,
    points: &[u16],
    whole: &Reducer,
    tally: &Tally,
) -> Result<(), AllocError>
    requires { points_of points.now ≡ points.now }
{
    let halves = halves_of_result(rt, alloc, tally, whole.residue())?;
    let expected = halves_of_points(rt, alloc, points)?;
    assert_equal(rt, &halves, &expected);
    Ok(())
}

#[test]
fn parts_join_from_the_left_to_the_count_of_the_whole(rt: HostRuntime) -> Result<(), Fail> {
    let mut tally = Tally::new(rt.alloc(), CLASSES, 120)?;
    for &(parts, points, cycles, residue) in ROWS {
        let whole = joined_from_the_left(&rt, rt.alloc(), parts, &mut tally)?;
        assert_eq!(rt; whole.residue(), residue);
        assert_counts(&rt, &tally, cycles);
        assert_halves(&rt, rt.alloc(), points, &whole, &tally)?;
        tally.clear();
    }
    Ok(())
}

#[test]
fn parts_join_from_the_right_to_the_count_of_the_whole(rt: HostRuntime) -> Result<(), Fail> {
    let mut tally = Tally::new(rt.alloc(), CLASSES, 120)?;
    for &(parts, points, cycles, residue) in ROWS {
        let whole = joined_from_the_right(&rt, rt.alloc(), parts, &mut tally)?;
        assert_eq!(rt; whole.residue(), residue);
        assert_counts(&rt, &tally, cycles);
        assert_halves(&rt, rt.alloc(), points, &whole, &tally)?;
        tally.clear();
    }
    Ok(())
}

#[test]
fn the_tables_points_are_those_of_the_whole(rt: HostRuntime) -> Result<(), Fail> {
    for &(parts, points, _, _) in ROWS {
        let mut levels = Vec::new(rt.alloc());
        for part in parts {
            levels.extend_from_slice(part)?;
        }
        let n = keep_points(&mut levels);
        assert_eq!(rt; &levels[..n], points);
    }
    Ok(())
}

// The two parts of the standard's example hold no cycle of their own.
#[test]
fn parts_of_the_standards_example_are_their_own_residues(rt: HostRuntime) -> Result<(), Fail> {
    let mut tally = Tally::new(rt.alloc(), CLASSES, 120)?;
    for part in ROWS[0].0 {
        let reducer = reduced(&rt, rt.alloc(), part, &mut tally)?;
        assert_eq!(rt; reducer.residue(), *part);
        assert_eq!(rt; tally.total(), 0);
    }
    Ok(())
}

#[test]
fn counts_half_units_by_pair(rt: HostRuntime) -> Result<(), AllocError> {
    // The standard's example, moved up by eight: its ranges in the order of the steps, as they are
    // counted by hand.
    let mut pairs = PairCounter::new(rt.alloc(), 16)?;
    let mut run = Run::new(rt.alloc(), 16)?;
    run.push_all(&[6, 9, 5, 13, 7], &mut pairs);
    run.push_all(&[11, 4, 12, 6], &mut pairs);
    run.finish(&mut pairs);
    for (lo, hi, half_units) in [
        (6, 9, 1),
        (5, 9, 1),
        (7, 11, 2),
        (5, 13, 1),
        (4, 13, 1),
        (4, 12, 1),
        (6, 12, 1),
    ] {
        assert_eq!(rt; pairs.tally().get(lo, hi), half_units, "of {lo} and {hi}");
    }
    assert_eq!(rt; pairs.tally().total(), 8);
    Ok(())
}
