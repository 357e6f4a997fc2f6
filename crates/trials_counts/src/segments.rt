use calibration::{Classifier, Gain, Grid, Items, MAX_SAMPLES};
use segment::segment_rules::{Name, Parts};
use segment::{JoinRefusal, LoadFault, Segment};
use std::alloc::{AllocError, Global};
use std::process::Abort;
use std::test::Fail;
use tally::{Bin, Cell};
use turning_points::{Ends, ends_of};

/// Neighbouring parts of a gauge's samples, and what the whole comes to.
struct Row {
    parts: &'static [&'static [i32]],
    /// How many of all are used, missing and refused.
    readings: [u64; 3],
    points: &'static [u16],
    cells: &'static [Cell],
    residue: &'static [u16],
    /// The half units of the ranges `k` classes apart at place `k`.
    halves: [u64; 16],
}

// The standard's own example.
const EXAMPLE: &[i32] = &[-2, 1, -3, 5, -1, 3, -4, 4, -2];

const POINTS: &[u16] = &[6, 9, 5, 13, 7, 11, 4, 12, 6];

const CELLS: &[Cell] = &[Cell {
    lo: 7,
    hi: 11,
    n: 1,
}];

const RESIDUE: &[u16] = &[6, 9, 5, 13, 4, 12, 6];

const HALVES: [u64; 16] = [0, 0, 0, 1, 3, 0, 1, 0, 2, 1, 0, 0, 0, 0, 0, 0];

// By hand from the rules, over the whole history; the half units by the standard's steps over its
// points. A raw value `r` has level `r + 8`.
const ROWS: &[Row] = &[
    Row {
        parts: &[&[-2, 1, -3, 5], &[-1, 3, -4, 4, -2]],
        readings: [9, 0, 0],
        points: POINTS,
        cells: CELLS,
        residue: RESIDUE,
        halves: HALVES,
    },
    Row {
        parts: &[&[-2, 1, -3, 5, -1], &[3], &[-4, 4, -2]],
        readings: [9, 0, 0],
        points: POINTS,
        cells: CELLS,
        residue: RESIDUE,
        halves: HALVES,
    },
    // One level alone.
    Row {
        parts: &[&[2], &[2], &[2]],
        readings: [3, 0, 0],
        points: &[10],
        cells: &[],
        residue: &[10],
        halves: [0; 16],
    },
    // A plateau over both cuts is one point.
    Row {
        parts: &[&[0, 5], &[5, 5], &[0]],
        readings: [5, 0, 0],
        points: &[8, 13, 8],
        cells: &[],
        residue: &[8, 13, 8],
        halves: [0, 0, 0, 0, 0, 2, 0, 0, 0, 0, 0, 0, 0, 0, 0, 0],
    },
    // The last level of the left part is no point of the whole.
    Row {
        parts: &[&[0, 5, 3], &[1, 6]],
        readings: [5, 0, 0],
        points: &[8, 13, 9, 14],
        cells: &[Cell {
            lo: 9,
            hi: 13,
            n: 1,
        }],
        residue: &[8, 14],
        halves: [0, 0, 0, 0, 2, 0, 1, 0, 0, 0, 0, 0, 0, 0, 0, 0],
    },
    // Readings that are missing or outside the classes, and a part of such readings alone.
    Row {
        parts: &[&[7, 8], &[i32::MIN, 8], &[-8, -9]],
        readings: [2, 1, 3],
        points: &[15, 0],
        cells: &[],
        residue: &[15, 0],
        halves: [0, 0, 0, 0, 0, 0, 0, 0, 0, 0, 0, 0, 0, 0, 0, 1],
    },
    Row {
        parts: &[&[], &[i32::MIN], &[]],
        readings: [0, 1, 0],
        points: &[],
        cells: &[],
        residue: &[],
        halves: [0; 16],
    },
];

fn take_all(rt: &impl Abort, segment: &mut Segment, raws: &[i32], gain: &Gain) {
    for &raw in raws {
        let name = segment.name();
        assert!(rt; name.to < MAX_SAMPLES);
        assert!(rt; name.to - name.from < segment.longest());
        segment.take(raw, gain);
    }
}

// Takes the samples of a gauge from a place on, one at a time.
fn taken(
    rt: &impl Abort,
    alloc: Global,
    grid: &Grid,
    gauge: u16,
    from: u64,
    raws: &[i32],
) -> Result<Segment, Fail> {
    let gain = Gain::new(1000, 1, 0)?;
    assert!(rt; from <= 1000);
    let mut segment = Segment::new(alloc, grid, gauge, from, 16)?;
    take_all(rt, &mut segment, raws, &gain);
    Ok(segment)
}

// Takes those of gauge 0 as one block.
fn counted(
    rt: &impl Abort,
    alloc: Global,
    grid: &Grid,
    from: u64,
    raws: &[i32],
) -> Result<Segment, Fail> {
    let gain = Gain::new(1000, 1, 0)?;
    assert!(rt; from <= 1000 && raws.len() <= 16);
    let mut segment = Segment::new(alloc, grid, 1, 0, 1000)?;
    segment.clear(0, from);
    let mut levels = [77; 16];
    segment.count_block(raws, &Classifier::new(&gain, grid), &mut levels);
    Ok(segment)
}

fn join(rt: &impl Abort, left: &mut Segment, right: &Segment) -> Result<(), JoinRefusal> {
    assert!(rt; left.grid() == right.grid());
    let (a, b) = (left.name(), right.name());
    assert!(rt; a.to - a.from + (b.to - b.from) <= left.longest());
    left.join(right)
}

// Joins the part that comes next, taken a sample at a time.
fn put_behind(
    rt: &impl Abort,
    alloc: Global,
    grid: &Grid,
    whole: &mut Segment,
    part: &[i32],
) -> Result<(), Fail> {
    let next = taken(rt, alloc, grid, 0, whole.name().to, part)?;
    Ok(join(rt, whole, &next)?)
}

// Joins the part that comes before, counted as a block.
fn put_before(
    rt: &impl Abort,
    alloc: Global,
    grid: &Grid,
    part: &[i32],
    whole: &Segment,
) -> Result<Segment, Fail> {
    let end = whole.name().from;
    assert!(rt; part.len() as u64 <= end);
    let mut front = counted(rt, alloc, grid, end - part.len() as u64, part)?;
    join(rt, &mut front, whole)?;
    Ok(front)
}

// The first two parts are joined first. With room for few pairs the cycles are a log.
fn joined_from_the_left(
    rt: &impl Abort,
    alloc: Global,
    grid: &Grid,
    parts: &[&[i32]],
) -> Result<Segment, Fail> {
    let mut whole = taken(rt, alloc, grid, 0, 0, &[])?;
    for part in parts {
        put_behind(rt, alloc, grid, &mut whole, part)?;
    }
    Ok(whole)
}

// The last two parts are joined first. With room for each pair the cycles are a table.
fn joined_from_the_right(
    rt: &impl Abort,
    alloc: Global,
    grid: &Grid,
    parts: &[&[i32]],
    end: u64,
) -> Result<Segment, Fail> {
    let mut whole = counted(rt, alloc, grid, end, &[])?;
    for part in parts.iter().rev() {
        whole = put_before(rt, alloc, grid, part, &whole)?;
    }
    Ok(whole)
}

fn assert_cells(rt: &impl Abort, segment: &mut Segment, expected: &[Cell]) {
    let mut cells = [Cell { lo: 0, hi: 0, n: 0 }; 4];
    assert!(rt; segment.cells() <= 4);
    let n = segment.write_cells(&mut cells);
    assert_eq!(rt; &cells[..n], expected);
}

fn assert_residue(rt: &impl Abort, segment: &Segment, expected: &[u16]) {
    assert_eq!(rt; segment.residue(), expected);
}

fn assert_half_units(rt: &impl Abort, segment: &Segment, expected: &[u64; 16]) {
    let mut halves = [77; 16];
    assert!(rt; segment.grid().classes() == 16);
    segment.half_units(&mut halves);
    assert_eq!(rt; &halves, expected);
}

fn assert_name(rt: &impl Abort, segment: &Segment, to: u64) {
    let name = segment.name();
    assert_eq!(rt; (name.gauge, name.from, name.to), (0, 0, to));
}

fn assert_whole(rt: &impl Abort, whole: &mut Segment, row: &Row) {
    assert_eq!(rt;
        [whole.used(), whole.missing(), whole.refused()],
        row.readings
    );
    assert_eq!(rt; whole.ends(), ends_of(row.points));
    assert_residue(rt, whole, row.residue);
    assert_cells(rt, whole, row.cells);
    assert_half_units(rt, whole, &row.halves);
}

fn samples_of(rt: &impl Abort, row: &Row) -> u64 {
    let [used, missing, refused] = row.readings;
    assert!(rt; used <= 16 && missing <= 16 && refused <= 16);
    used + missing + refused
}

fn assert_from_the_left(
    rt: &impl Abort,
    alloc: Global,
    grid: &Grid,
    row: &Row,
    to: u64,
) -> Result<(), Fail> {
    let mut whole = joined_from_the_left(rt, alloc, grid, row.parts)?;
    assert_name(rt, &whole, to);
    assert_whole(rt, &mut whole, row);
    Ok(())
}

fn assert_from_the_right(
    rt: &impl Abort,
    alloc: Global,
    grid: &Grid,
    row: &Row,
    to: u64,
) -> Result<(), Fail> {
    let mut whole = joined_from_the_right(rt, alloc, grid, row.parts, to)?;
    assert_name(rt, &whole, to);
    assert_whole(rt, &mut whole, row);
    Ok(())
}

#[test]
fn parts_join_in_any_bracketing(rt: HostRuntime) -> Result<(), Fail> {
    let grid = Grid::new(16, 2, -8000, 8)?;
    for row in ROWS {
        let to = samples_of(&rt, row);
        assert_from_the_left(&rt, rt.alloc(), &grid, row, to)?;
        assert_from_the_right(&rt, rt.alloc(), &grid, row, to)?;
    }
    Ok(())
}

// Before the two parts of the standard's example are joined no cycle is closed.
#[test]
fn parts_keep_their_own_residue(rt: HostRuntime) -> Result<(), Fail> {
    let grid = Grid::new(16, 2, -8000, 8)?;
    let mut left = taken(&rt, rt.alloc(), &grid, 0, 0, &EXAMPLE[..4])?;
    assert_residue(&rt, &left, &[6, 9, 5, 13]);
    assert_cells(&rt, &mut left, &[]);
    let mut right = taken(&rt, rt.alloc(), &grid, 0, 4, &EXAMPLE[4..])?;
    assert_residue(&rt, &right, &[7, 11, 4, 12, 6]);
    assert_cells(&rt, &mut right, &[]);
    Ok(())
}

// The first four samples of the standard's example, by hand.
const FOUR: Row = Row {
    parts: &[&[-2, 1, -3, 5]],
    readings: [4, 0, 0],
    points: &[6, 9, 5, 13],
    cells: &[],
    residue: &[6, 9, 5, 13],
    halves: FOUR_HALVES,
};

const FOUR_HALVES: [u64; 16] = [0, 0, 0, 1, 1, 0, 0, 0, 1, 0, 0, 0, 0, 0, 0, 0];

// Their crossings of each boundary, from 1 on; the peaks and the valleys at each level.
const FOUR_CROSSED: [u64; 16] = [0, 0, 0, 0, 0, 0, 1, 1, 2, 2, 1, 1, 1, 1, 0, 0];

const FOUR_PEAKS: [u64; 16] = [0, 0, 0, 0, 0, 0, 0, 0, 0, 1, 0, 0, 0, 0, 0, 0];

const FOUR_VALLEYS: [u64; 16] = [0, 0, 0, 0, 0, 1, 0, 0, 0, 0, 0, 0, 0, 0, 0, 0];

// Each of their ranges is a simple range and one half unit.
fn assert_four(rt: &impl Abort, left: &mut Segment) {
    assert_name(rt, left, 4);
    assert_whole(rt, left, &FOUR);
    assert!(rt; left.grid().classes() == 16);
    for level in 0..16u16 {
        let at = usize::from(level);
        assert_eq!(rt; left.peaks(level), FOUR_PEAKS[at]);
        assert_eq!(rt; left.valleys(level), FOUR_VALLEYS[at]);
        assert_eq!(rt; left.ranges(level), FOUR_HALVES[at]);
        assert!(rt; level == 0 || left.crossings(level) == FOUR_CROSSED[at]);
    }
}

// Why samples are not joined behind those four, which stay as they are.
fn refusal(
    rt: &impl Abort,
    alloc: Global,
    grid: &Grid,
    gauge: u16,
    from: u64,
    raws: &[i32],
) -> Result<Option<JoinRefusal>, Fail> {
    let mut left = taken(rt, alloc, grid, 0, 0, &EXAMPLE[..4])?;
    let right = taken(rt, alloc, grid, gauge, from, raws)?;
    let answer = join(rt, &mut left, &right);
    assert_four(rt, &mut left);
    Ok(answer.err())
}

// A part that leaves a sample out, and one of another gauge.
#[test]
fn strangers_are_not_joined(rt: HostRuntime) -> Result<(), Fail> {
    let grid = Grid::new(16, 2, -8000, 8)?;
    let answer = refusal(&rt, rt.alloc(), &grid, 0, 5, &EXAMPLE[5..])?;
    assert_eq!(rt; answer, Some(JoinRefusal::NotNext { to: 4, from: 5 }));
    let answer = refusal(&rt, rt.alloc(), &grid, 1, 4, &EXAMPLE[4..])?;
    assert_eq!(rt; answer, Some(JoinRefusal::OtherGauge(0, 1)));
    Ok(())
}

fn bin(key: u16, n: u64) -> Bin {
    Bin { key, n }
}

// The parts of the levels 8 13 8 13, with a number of used samples, of cycles of its pair, and a
// second level of its residue.
fn parts(alloc: Global, used: u64, cycles: u64, second: u16) -> Result<Parts, AllocError> {
    Ok(Parts {
        name: Name {
            gauge: 0,
            from: 0,
            to: 4,
        },
        used,
        missing: 0,
        refused: 0,
        ends: Ends {
            points: 4,
            first: [8, 13],
            last: [8, 13],
        },
        residue: Items::from_vec(vec![in alloc; 8, second]?),
        cells: Items::from_vec(vec![in alloc;
            Cell {
                lo: 8,
                hi: 13,
                n: cycles
            },
        ]?),
        crossings: Items::from_vec(vec![in alloc;
            bin(9, 2),
            bin(10, 2),
            bin(11, 2),
            bin(12, 2),
            bin(13, 2),
        ]?),
        peaks: Items::from_vec(vec![in alloc; bin(13, 1)]?),
        valleys: Items::from_vec(Vec::new(alloc)),
        ranges: Items::from_vec(vec![in alloc; bin(5, 3)]?),
    })
}

fn loaded(
    alloc: Global,
    grid: &Grid,
    used: u64,
    cycles: u64,
    second: u16,
) -> Result<Segment, LoadFault> {
    Segment::load(alloc, grid, &parts(alloc, used, cycles, second)?)
}

fn fault(alloc: Global, grid: &Grid, used: u64, cycles: u64, second: u16) -> Option<LoadFault> {
    loaded(alloc, grid, used, cycles, second).err()
}

#[test]
fn parts_are_loaded(rt: HostRuntime) -> Result<(), Fail> {
    let grid = Grid::new(16, 2, -8000, 8)?;
    let whole = loaded(rt.alloc(), &grid, 4, 1, 13)?;
    assert_name(&rt, &whole, 4);
    assert_eq!(rt; (whole.longest(), whole.used()), (4, 4));
    assert_eq!(rt; whole.halves(8, 13), 3);
    assert_residue(&rt, &whole, &[8, 13]);
    Ok(())
}

#[test]
fn parts_are_refused(rt: HostRuntime) -> Result<(), Fail> {
    let grid = Grid::new(16, 2, -8000, 8)?;
    for (used, cycles, second, expected) in [
        (4, 0, 13, LoadFault::Order { list: 0, index: 0 }),
        (5, 1, 13, LoadFault::Sum { rule: 2 }),
        (4, 1, 14, LoadFault::Residue { rule: 3 }),
    ] {
        let found = fault(rt.alloc(), &grid, used, cycles, second);
        assert_eq!(rt; found, Some(expected));
    }
    Ok(())
}
