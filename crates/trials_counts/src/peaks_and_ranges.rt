ghost use Rattle.std.specs.Prelude.{◌≡◌, IfOk};

use calibration::Grid;
use simple_counts::Simple;
use simple_counts::level_crossing::Crossings;
use std::alloc::{AllocError, Global};
use std::process::Abort;
use std::test::Fail;
use tally::Bin;
use turning_points::ends_of;

// The standard's own example, on 16 classes of 1 N/mm² from -8 N/mm², with the reference at 0.
const LEVELS: &[u16] = &[6, 9, 5, 13, 7, 11, 4, 12, 6];

// Its peaks and valleys at each level, and its ranges.
const PEAKS: &[u64] = &[0, 0, 0, 0, 0, 0, 0, 0, 0, 1, 0, 1, 1, 1, 0, 0];

const VALLEYS: &[u64] = &[0, 0, 0, 0, 1, 1, 0, 1, 0, 0, 0, 0, 0, 0, 0, 0];

const RANGES: &[u64] = &[0, 0, 0, 1, 2, 0, 2, 1, 2, 0, 0, 0, 0, 0, 0, 0];

// The counts of levels that come one at a time; a level that the grid doesn't have is left out.
fn counted(alloc: Global, grid: &Grid, levels: &[u16]) -> Result<Simple, AllocError>
    ensures { IfOk result (λ s.
        (s.classes ≡ grid.now.classes) × (s.reference ≡ grid.now.reference)) }
{
    let mut simple = Simple::new(alloc, grid)?;
    for &level in levels {
        if level < grid.classes() && simple.ends().points < 100 {
            simple.push(level);
        }
    }
    Ok(simple)
}

fn assert_counts(rt: &impl Abort, simple: &Simple, peaks: &[u64], valleys: &[u64], ranges: &[u64])
    requires classes { simple.now.classes ≡ 16 }
{
    assert_eq!(rt; (peaks.len(), valleys.len(), ranges.len()), (16, 16, 16));
    for k in 0..16u16 {
        let place = usize::from(k);
        assert_eq!(rt; simple.peaks(k), peaks[place], "peaks at {k}");
        assert_eq!(rt; simple.valleys(k), valleys[place], "valleys at {k}");
        assert_eq!(rt; simple.half_ranges(k), ranges[place], "ranges of {k}");
    }
}

fn assert_same(rt: &impl Abort, one: &Simple, other: &Simple, classes: u16)
    requires one { one.now.classes ≡ classes }
    requires other { other.now.classes ≡ classes }
{
    assert_eq!(rt; one.ends(), other.ends());
    for k in 0..classes {
        assert_eq!(rt; one.peaks(k), other.peaks(k), "peaks at {k}");
        assert_eq!(rt; one.valleys(k), other.valleys(k), "valleys at {k}");
        assert_eq!(rt; one.half_ranges(k), other.half_ranges(k), "ranges of {k}");
    }
}

#[test]
fn the_standards_example(rt: HostRuntime) -> Result<(), Fail> {
    let grid = Grid::new(16, 2, -8000, 8)?;
    let simple = counted(rt.alloc(), &grid, LEVELS)?;
    assert_eq!(rt; simple.ends(), ends_of(LEVELS));
    assert_counts(&rt, &simple, PEAKS, VALLEYS, RANGES);
    Ok(())
}

fn assert_joined(
    rt: &impl Abort,
    alloc: Global,
    grid: &Grid,
    levels: &[u16],
    cut: usize,
) -> Result<(), Fail> {
    assert!(rt; cut <= levels.len());
    let whole = counted(alloc, grid, levels)?;
    let mut joined = counted(alloc, grid, &levels[..cut])?;
    let right = counted(alloc, grid, &levels[cut..])?;
    assert!(rt; joined.ends().points < 100);
    assert!(rt; right.ends().points < 100);
    joined.join(&right);
    assert_same(rt, &joined, &whole, grid.classes());
    Ok(())
}

// Histories and all their cuts in two, on 1024 classes.
#[test]
fn joined_at_any_cut(rt: HostRuntime) -> Result<(), Fail> {
    let grid = Grid::new(1024, 1, 0, 8)?;
    let histories = [
        LEVELS,
        [8, 13, 13, 13, 8].as_slice(),
        [8, 13, 11, 9, 14].as_slice(),
        [0, 1023, 1023, 0].as_slice(),
        [7, 7, 7].as_slice(),
    ];
    for levels in histories {
        for cut in 0..=levels.len() {
            assert_joined(&rt, rt.alloc(), &grid, levels, cut)?;
        }
    }
    Ok(())
}

// The points of a history at once.
#[test]
fn taken_from_points(rt: HostRuntime) -> Result<(), Fail> {
    let grid = Grid::new(16, 2, -8000, 8)?;
    let mut simple = Simple::new(rt.alloc(), &grid)?;
    let mut crossings = Crossings::new(rt.alloc(), &grid)?;
    simple.take_points(LEVELS, &mut crossings);
    for (boundary, count) in [(4, 0), (5, 1), (7, 3), (8, 4), (13, 1), (14, 0)] {
        assert_eq!(rt; crossings.at(boundary), count, "crossings of {boundary}");
    }
    assert_counts(&rt, &simple, PEAKS, VALLEYS, RANGES);
    Ok(())
}

#[test]
fn cleared(rt: HostRuntime) -> Result<(), Fail> {
    let grid = Grid::new(16, 2, -8000, 8)?;
    let mut simple = counted(rt.alloc(), &grid, LEVELS)?;
    simple.clear();
    assert_eq!(rt; simple.ends(), ends_of(&[]));
    for k in 0..16 {
        assert_eq!(rt;
            (simple.peaks(k), simple.valleys(k), simple.half_ranges(k)),
            (0, 0, 0)
        );
    }
    Ok(())
}

// By bins: what is loaded is told again, whatever was counted before.
#[test]
fn loaded_from_bins(rt: HostRuntime) -> Result<(), Fail> {
    let grid = Grid::new(16, 2, -8000, 8)?;
    let mut simple = counted(rt.alloc(), &grid, LEVELS)?;
    let ranges = [Bin { key: 3, n: 1 }, Bin { key: 5, n: 1 }];
    simple.load(
        &ends_of(&[8, 13, 10]),
        &[Bin { key: 13, n: 1 }],
        &[],
        &ranges,
    );
    for (k, peaks, valleys, half_ranges) in [
        (3, 0, 0, 1),
        (5, 0, 0, 1),
        (9, 0, 0, 0),
        (13, 1, 0, 0),
    ] {
        assert!(rt; k < grid.classes());
        assert_eq!(rt;
            (simple.peaks(k), simple.valleys(k), simple.half_ranges(k)),
            (peaks, valleys, half_ranges)
        );
    }
    Ok(())
}
