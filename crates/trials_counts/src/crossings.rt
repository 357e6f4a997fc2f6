ghost use Rattle.std.specs.Prelude.{◌≡◌, ◌≤◌, ◌^◌, ℕ, IfOk, length};
ghost use Rattle.simple_counts.specs.level_crossing.Crossings.{crossing_count};

use calibration::Grid;
use simple_counts::level_crossing::Crossings;
use std::alloc::{AllocError, Global};
use std::process::Abort;
use std::test::Fail;
use tally::Bin;
use turning_points::ends_of;

// The standard's own example, on 16 classes of 1 N/mm² from -8 N/mm², with the reference at 0.
const LEVELS: &[u16] = &[6, 9, 5, 13, 7, 11, 4, 12, 6];

// Its counts at each boundary: from 8 on upwards, below 8 downwards.
const COUNTS: &[u64] = &[0, 0, 0, 0, 0, 1, 2, 3, 4, 4, 3, 3, 2, 1, 0, 0];

// Its peaks from the reference on, and its valleys below it.
const EXTREMES: &[u64] = &[0, 0, 0, 0, 1, 1, 0, 1, 0, 1, 0, 1, 1, 1, 0, 0];

// The crossings of levels that come one at a time; a level that the grid doesn't have is left out.
fn counted(alloc: Global, grid: &Grid, levels: &[u16]) -> Result<Crossings, AllocError>
    requires { length levels.now ≤ 2 ^ 20 }
    ensures few { IfOk result (λ s. (l : ℕ) → crossing_count s l ≤ 2 ^ 20) }
    ensures grid { IfOk result (λ s.
        (s.classes ≡ grid.now.classes) × (s.reference ≡ grid.now.reference)) }
{
    let mut crossings = Crossings::new(alloc, grid)?;
    for &level in levels {
        if level < grid.classes() {
            crossings.push(level);
        }
    }
    Ok(crossings)
}

fn assert_counts(rt: &impl Abort, crossings: &Crossings, counts: &[u64])
    requires classes { crossings.now.classes ≡ 16 }
{
    assert_eq!(rt; counts.len(), 16);
    for boundary in 0..16u16 {
        let expected = counts[usize::from(boundary)];
        assert_eq!(rt; crossings.at(boundary), expected, "at {boundary}");
    }
}

fn assert_same(rt: &impl Abort, one: &Crossings, other: &Crossings, classes: u16)
    requires one { one.now.classes ≡ classes }
    requires other { other.now.classes ≡ classes }
{
    for boundary in 0..classes {
        assert_eq!(rt; one.at(boundary), other.at(boundary), "at {boundary}");
    }
}

#[test]
fn the_standards_example(rt: HostRuntime) -> Result<(), Fail> {
    let grid = Grid::new(16, 2, -8000, 8)?;
    let crossings = counted(rt.alloc(), &grid, LEVELS)?;
    assert_counts(&rt, &crossings, COUNTS);
    Ok(())
}

fn assert_joined(
    rt: &impl Abort,
    alloc: Global,
    grid: &Grid,
    levels: &[u16],
    cut: usize,
) -> Result<(), Fail> {
    assert!(rt; levels.len() <= 16 && cut <= levels.len());
    let whole = counted(alloc, grid, levels)?;
    let mut joined = counted(alloc, grid, &levels[..cut])?;
    let right = counted(alloc, grid, &levels[cut..])?;
    joined.join(&right);
    assert_same(rt, &joined, &whole, grid.classes());
    Ok(())
}

// Histories and all their cuts in two, on 1024 classes.
#[test]
fn joined_at_any_cut(rt: HostRuntime) -> Result<(), Fail> {
    let grid = Grid::new(1024, 1, 0, 8)?;
    let histories = [
        LEVELS,
        [8, 13, 13, 13, 8].as_slice(),
        [8, 13, 11, 9, 14].as_slice(),
        [0, 1023, 1023, 0].as_slice(),
        [7, 7, 7].as_slice(),
    ];
    for levels in histories {
        for cut in 0..=levels.len() {
            assert_joined(&rt, rt.alloc(), &grid, levels, cut)?;
        }
    }
    Ok(())
}

// By bins: what is loaded is told again, whatever was counted before.
#[test]
fn loaded_from_bins(rt: HostRuntime) -> Result<(), Fail> {
    let grid = Grid::new(16, 2, -8000, 8)?;
    let mut crossings = counted(rt.alloc(), &grid, &[0, 15, 3])?;
    let bins = [
        Bin { key: 5, n: 1 },
        Bin { key: 8, n: 4 },
        Bin { key: 15, n: 7 },
    ];
    crossings.load(&ends_of(&[6, 9]), &bins);
    for (boundary, count) in [(1, 0), (5, 1), (7, 0), (8, 4), (14, 0), (15, 7)] {
        assert!(rt; boundary < grid.classes());
        assert_eq!(rt; crossings.at(boundary), count, "at {boundary}");
    }
    Ok(())
}

// The points of a history at once.
#[test]
fn taken_from_points(rt: HostRuntime) -> Result<(), Fail> {
    let grid = Grid::new(16, 2, -8000, 8)?;
    let mut crossings = Crossings::new(rt.alloc(), &grid)?;
    let mut extremes = vec![in rt.alloc(); 9; 16]?;
    crossings.take_points(LEVELS, &mut extremes);
    assert_eq!(rt; extremes.as_slice(), EXTREMES);
    assert_counts(&rt, &crossings, COUNTS);
    Ok(())
}

#[test]
fn cleared(rt: HostRuntime) -> Result<(), Fail> {
    let grid = Grid::new(16, 2, -8000, 8)?;
    let mut crossings = counted(rt.alloc(), &grid, LEVELS)?;
    crossings.clear();
    for boundary in 0..16 {
        assert_eq!(rt; crossings.at(boundary), 0, "at {boundary}");
    }
    Ok(())
}
