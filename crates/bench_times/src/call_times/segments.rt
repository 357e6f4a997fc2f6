ghost use Rattle.std.specs.Prelude.{◌≡◌, ◌≤◌};

use crate::call_times::digest::Digest;
use calibration::{Classifier, Gain, Grid, MAX_SAMPLES};
use segment::Segment;
use std::alloc::{AllocError, Global};
use std::fmt;

/// A way to make the segment of a history.
#[derive(Clone, Copy, Debug, PartialEq, Eq)]
pub enum Way {
    /// By blocks of so many samples, which so many units count in turn.
    Blocks { length: u16, units: u16 },
    /// By samples, one after another.
    Samples,
}

impl Way {
    /// All ways, in the order in which they are shown.
    pub const ALL: [Way; 5] = [
        Way::Blocks {
            length: 1024,
            units: 1,
        },
        Way::Blocks {
            length: 4096,
            units: 1,
        },
        Way::Blocks {
            length: 1024,
            units: 512,
        },
        Way::Blocks {
            length: 4096,
            units: 512,
        },
        Way::Samples,
    ];

    // The samples of a unit's block; where there are no blocks, of a unit that counts nothing.
    fn length(self) -> u16
        ensures { 1 ≤ result }
    {
        match self {
            Way::Blocks { length, .. } => length.max(1),
            Way::Samples => 1,
        }
    }

    fn units(self) -> u16 {
        match self {
            Way::Blocks { units, .. } => units,
            Way::Samples => 0,
        }
    }

    /// How many samples are taken: where there are many units, so many that each counts a block.
    pub fn samples(self) -> u32 {
        if self.units() > 1 {
            MANY_SAMPLES
        } else {
            MANY_SAMPLES / 16
        }
    }
}

impl fmt::Display for Way {
    fn fmt<W: fmt::Write>(&self, f: &mut fmt::Formatter<W>) -> fmt::Result {
        match self {
            Way::Blocks { length, units: 1 } => write!(f, "segment_by_blocks_of_{length}"),
            Way::Blocks { length, units } => {
                write!(f, "segment_by_blocks_of_{length}_in_{units}_units")
            }
            Way::Samples => f.write_str("segment_by_samples"),
        }
    }
}

/// The most samples of a history.
pub const MANY_SAMPLES: u32 = 1 << 21;

/// What the segment of a history is made with.
#[derive(Drop)]
pub struct Maker {
    way: Way,
    whole: Segment,
    units: Vec<Segment>,
    levels: Vec<u16>,
}

impl Maker {
    /// Takes all memory that the segments of this way need, over the classes of a grid.
    pub fn new(alloc: Global, way: Way, grid: &Grid) -> Result<Maker, AllocError> {
        let mut units = Vec::new(alloc);
        for _ in 0..way.units() {
            units.push(Segment::new(alloc, grid, 0, 0, u64::from(way.length()))?)?;
        }
        Ok(Maker {
            way,
            whole: Segment::new(alloc, grid, 0, 0, u64::from(MANY_SAMPLES))?,
            units,
            levels: vec![in alloc; 0; usize::from(way.length())]?,
        })
    }

    /// A digest of the segment of a history whose raw values are its levels. Samples beyond the
    /// most are left out.
    pub fn make(&mut self, raws: &[i32]) -> u64 {
        self.whole.clear(0, 0);
        match self.way {
            Way::Blocks { length, .. } => join_blocks(
                &mut self.whole,
                &mut self.units,
                raws,
                length.max(1),
                &mut self.levels,
            ),
            Way::Samples => take_samples(&mut self.whole, raws),
        }
        digest(&self.whole)
    }
}

// 1 N/mm² to the raw unit, from -64 N/mm².
fn gain() -> Gain {
    match Gain::new(1000, 1, -64000) {
        Ok(gain) => gain,
        Err(_) => unreachable!(),
    }
}

// Counts a block by the unit's segment, and joins that behind the whole. A block that one of them
// has no room for is left out.
fn join_block(
    whole: &mut Segment,
    unit: &mut Segment,
    raws: &[i32],
    grid: &Grid,
    classifier: &Classifier,
    levels: &mut [u16],
)
    requires { classifier.now.grid ≡ grid.now }
{
    let more = raws.len() as u64;
    let name = whole.name();
    if whole.grid() != *grid || unit.grid() != *grid || raws.len() > levels.len() {
        return;
    }
    if more > unit.longest() {
        return;
    }
    if more > MAX_SAMPLES - name.to || more > whole.longest() - (name.to - name.from) {
        return;
    }
    unit.clear(name.gauge, name.to);
    unit.count_block(raws, classifier, levels);
    let _answer = whole.join(unit);
}

// Counts block after block by the units in turn, and joins each behind the whole.
fn join_blocks(
    whole: &mut Segment,
    units: &mut [Segment],
    raws: &[i32],
    length: u16,
    levels: &mut [u16],
)
    requires { 1 ≤ length }
{
    let grid = whole.grid();
    let classifier = Classifier::new(&gain(), &grid);
    let mut turn = 0;
    for part in raws.chunks(usize::from(length)) {
        if turn >= units.len() {
            turn = 0;
        }
        if let Some(unit) = units.get_mut(turn) {
            join_block(whole, unit, part, &grid, &classifier, levels);
            turn += 1;
        }
    }
}

fn take_samples(whole: &mut Segment, raws: &[i32]) {
    let gain = gain();
    for &raw in raws {
        let name = whole.name();
        if name.to < MAX_SAMPLES && name.to - name.from < whole.longest() {
            whole.take(raw, &gain);
        }
    }
}

// The cycles of the pairs of which this is the lower level, and what crosses or turns at it.
fn take_level(digest: &mut Digest, whole: &Segment, level: u16) {
    let classes = whole.grid().classes();
    if level == 0 || level >= classes {
        return;
    }
    for hi in level + 1..classes {
        digest.take(whole.cycles(level, hi));
    }
    digest.take(whole.crossings(level));
    digest.take(whole.peaks(level));
    digest.take(whole.valleys(level));
    digest.take(whole.ranges(level));
}

fn take_levels(digest: &mut Digest, whole: &Segment) {
    for level in 1..whole.grid().classes() {
        take_level(digest, whole, level);
    }
}

fn digest(whole: &Segment) -> u64 {
    let mut digest = Digest::new();
    take_levels(&mut digest, whole);
    for &level in whole.residue() {
        digest.take(u64::from(level));
    }
    digest.take(whole.used());
    digest.value()
}
