ghost use Rattle.std.specs.Prelude.{◌≡◌, ◌≤◌, ◌<◌, ◌^◌, All, IfOk, IsTrue, length, ℕ};
ghost use Rattle.turning_points.specs.Points.{points};
ghost use Rattle.simple_counts.specs.level_crossing.Crossings.{crossing_count};
ghost use Rattle.bench_times.specs.call_times.Counts.{SameGrid};

use crate::call_times::digest::Digest;
use calibration::Grid;
use simple_counts::Simple;
use simple_counts::level_crossing::Crossings;
use std::alloc::{AllocError, Global};
use std::fmt;
use turning_points::{MAX_POINTS, keep_points};

/// A way to count whose work is shown.
#[derive(Clone, Copy, Debug, PartialEq, Eq)]
pub enum Count {
    CrossingsByPoints,
    SimpleByPoints,
    CrossingsByLevels,
    SimpleByLevels,
}

impl Count {
    /// All ways, in the order in which they are shown.
    pub const ALL: [Count; 4] = [
        Count::CrossingsByPoints,
        Count::SimpleByPoints,
        Count::CrossingsByLevels,
        Count::SimpleByLevels,
    ];
}

impl fmt::Display for Count {
    fn fmt<W: fmt::Write>(&self, f: &mut fmt::Formatter<W>) -> fmt::Result {
        f.write_str(match self {
            Count::CrossingsByPoints => "crossings_by_points",
            Count::SimpleByPoints => "simple_by_points",
            Count::CrossingsByLevels => "crossings_by_levels",
            Count::SimpleByLevels => "simple_by_levels",
        })
    }
}

/// How many levels a block has.
const BLOCK: usize = 1024;

/// How often the points of a block are taken, so that finding them hardly counts.
const PASSES: usize = 16;

/// A digest of what a way to count answers over a history. By points it is told of each block of
/// 1,024 levels, by levels of the whole.
pub fn counted_by(
    alloc: Global,
    count: Count,
    grid: &Grid,
    levels: &[u16],
) -> Result<u64, AllocError> {
    let levels = &levels[..levels.len().min(1 << 20)];
    match count {
        Count::CrossingsByPoints => crossings_by_points(alloc, grid, levels),
        Count::SimpleByPoints => simple_by_points(alloc, grid, levels),
        Count::CrossingsByLevels => Ok(crossings_digest(&crossings_of(alloc, grid, levels)?, grid)),
        Count::SimpleByLevels => Ok(simple_digest(
            &simple_of(alloc, grid, levels)?,
            grid.classes(),
        )),
    }
}

// Whether all levels are below so many classes.
fn are_below(levels: &[u16], classes: u16) -> bool
    ensures { IsTrue result → All (λ level. level < classes) levels.now }
{
    for &level in levels {
        if level >= classes {
            return false;
        }
    }
    true
}

// The crossings and the extremes of points, in place of what was counted before.
fn cross(crossings: &mut Crossings, extremes: &mut Vec<u64>, list: &[u16], classes: u16)
    requires classes { crossings.old.classes ≡ classes }
    requires places { length extremes.old.items ≡ classes }
    requires own { points list.now ≡ list.now }
    requires few { length list.now ≤ 2 ^ 20 }
    ensures classes { crossings.new.classes ≡ classes }
    ensures places { length extremes.new.items ≡ classes }
{
    if are_below(list, classes) {
        crossings.clear();
        crossings.take_points(list, extremes);
    }
}

// The same of a block of levels, whose points are found first.
fn cross_block(crossings: &mut Crossings, extremes: &mut Vec<u64>, block: &mut [u16], classes: u16)
    requires classes { crossings.old.classes ≡ classes }
    requires places { length extremes.old.items ≡ classes }
    requires few { length block.old ≤ 2 ^ 20 }
    ensures classes { crossings.new.classes ≡ classes }
    ensures places { length extremes.new.items ≡ classes }
{
    let count = keep_points(block);
    for _ in 0..PASSES {
        cross(crossings, extremes, &block[..count], classes);
    }
}

fn crossings_by_points(alloc: Global, grid: &Grid, levels: &[u16]) -> Result<u64, AllocError> {
    let mut digest = Digest::new();
    let mut crossings = Crossings::new(alloc, grid)?;
    let classes = grid.classes();
    let mut extremes = vec![in alloc; 0; usize::from(classes)]?;
    for i in 0..levels.len() / BLOCK {
        let mut block = levels[i * BLOCK..(i + 1) * BLOCK].to_vec(alloc)?;
        cross_block(&mut crossings, &mut extremes, &mut block, classes);
        digest.take(crossings_digest(&crossings, grid));
    }
    Ok(digest.value())
}

fn crossings_digest(crossings: &Crossings, grid: &Grid) -> u64
    requires { crossings.now.classes ≡ grid.now.classes }
{
    let mut digest = Digest::new();
    for boundary in 0..grid.classes() {
        digest.take(crossings.at(boundary));
    }
    digest.value()
}

// The crossings of levels that come one at a time; one that the grid doesn't have is left out.
fn crossings_of(alloc: Global, grid: &Grid, levels: &[u16]) -> Result<Crossings, AllocError>
    requires { length levels.now ≤ 2 ^ 20 }
    ensures few { IfOk result (λ s. (l : ℕ) → crossing_count s l ≤ 2 ^ 20) }
    ensures grid { IfOk result (λ s. s.classes ≡ grid.now.classes) }
{
    let mut crossings = Crossings::new(alloc, grid)?;
    for &level in levels {
        if level < grid.classes() {
            crossings.push(level);
        }
    }
    Ok(crossings)
}

// The simple counts and the crossings of points, in place of what was counted before.
fn count_simple(simple: &mut Simple, crossings: &mut Crossings, list: &[u16], classes: u16)
    requires classes { simple.old.classes ≡ classes }
    requires same { SameGrid simple.old crossings.old }
    requires own { points list.now ≡ list.now }
    requires few { length list.now ≤ 2 ^ 20 }
    ensures classes { simple.new.classes ≡ classes }
    ensures same { SameGrid simple.new crossings.new }
{
    if are_below(list, classes) {
        simple.clear();
        crossings.clear();
        simple.take_points(list, crossings);
    }
}

// The same of a block of levels, whose points are found first.
fn count_simple_block(
    simple: &mut Simple,
    crossings: &mut Crossings,
    block: &mut [u16],
    classes: u16,
)
    requires classes { simple.old.classes ≡ classes }
    requires same { SameGrid simple.old crossings.old }
    requires few { length block.old ≤ 2 ^ 20 }
    ensures classes { simple.new.classes ≡ classes }
    ensures same { SameGrid simple.new crossings.new }
{
    let count = keep_points(block);
    for _ in 0..PASSES {
        count_simple(simple, crossings, &block[..count], classes);
    }
}

fn simple_by_points(alloc: Global, grid: &Grid, levels: &[u16]) -> Result<u64, AllocError> {
    let mut digest = Digest::new();
    let mut simple = Simple::new(alloc, grid)?;
    let mut crossings = Crossings::new(alloc, grid)?;
    let classes = grid.classes();
    for i in 0..levels.len() / BLOCK {
        let mut block = levels[i * BLOCK..(i + 1) * BLOCK].to_vec(alloc)?;
        count_simple_block(&mut simple, &mut crossings, &mut block, classes);
        digest.take(simple_digest(&simple, classes));
    }
    Ok(digest.value())
}

fn simple_digest(simple: &Simple, classes: u16) -> u64
    requires { simple.now.classes ≡ classes }
{
    let mut digest = Digest::new();
    for k in 0..classes {
        digest.take(simple.peaks(k));
        digest.take(simple.valleys(k));
        digest.take(simple.half_ranges(k));
    }
    digest.value()
}

// The simple counts of levels that come one at a time; one that the grid doesn't have is left out.
fn simple_of(alloc: Global, grid: &Grid, levels: &[u16]) -> Result<Simple, AllocError>
    ensures { IfOk result (λ s. s.classes ≡ grid.now.classes) }
{
    let mut simple = Simple::new(alloc, grid)?;
    for &level in levels {
        if level < grid.classes() && simple.ends().points < MAX_POINTS {
            simple.push(level);
        }
    }
    Ok(simple)
}
