ghost use Rattle.std.specs.Prelude.{◌≡◌, ◌*◌, ◌<◌, ◌≤◌, ℕ, length, slice_index, slice_index_or, IfOk};
ghost use Rattle.calibration.specs.declared.limits.TheConstants.{MAX_SAMPLES};
ghost use Rattle.board.specs.declared.block_pool.TheConstants.{MAX_BLOCK};
ghost use Rattle.board.specs.declared.TheConstants.{MAX_GAUGES};
ghost use Rattle.segment.specs.Segment.{SegmentValue};
ghost use Rattle.board.specs.Board.{IsRow};
ghost use Rattle.board.specs.Rows.{CanPlace, IsPlacing};
ghost use Rattle.board.specs.Clearing.{AllEmptied, RowBegun, RowsBegun, IsFresh};

use crate::OutOfMemory;
use crate::flow::BLOCKS_PER_WINDOW;
use crate::rows::{is_empty, place};
use calibration::Grid;
use segment::Segment;
use segment::segment_rules::Name;
use std::alloc::Global;
use std::marker::Model;

/// The intervals of a gauge: the one that begins at the k-th block of the window stands at place k,
/// and an empty segment where none does.
#[derive(Drop)]
pub(crate) struct Intervals {
    start: u64,
    slots: Vec<Segment>,
}

impl Model for Intervals {
    ghost use Rattle.board.specs.Board.{Row};

    ghost Value = { Row };

    ghost view = { λ r. record { start = r.start; slots = r.slots.items } };
}

impl Intervals {
    /// Of the window from 0, of which nothing is placed. Blocks that come in order all go to the
    /// first interval, so the others are seldom used.
    pub(crate) fn new(
        alloc: Global,
        grid: &Grid,
        gauge: u16,
        block: u32,
    ) -> Result<Intervals, OutOfMemory>
        requires block { (1 ≤ block) × (block ≤ MAX_BLOCK) }
        ensures { IfOk result (IsFresh block grid.now gauge 0) }
    {
        let longest = BLOCKS_PER_WINDOW as u64 * block as u64;
        let mut slots = Vec::with_capacity(alloc, BLOCKS_PER_WINDOW)?;
        slots.push_reserved(Segment::new(alloc, grid, gauge, 0, longest)?);
        for _ in 1..BLOCKS_PER_WINDOW {
            slots.push_reserved(Segment::new_spare(alloc, grid, gauge, 0, longest)?);
        }
        Ok(Intervals { start: 0, slots })
    }

    pub(crate) fn start(&self) -> u64
        ensures { result ≡ self.now.start }
    {
        self.start
    }

    // Empties the row, and gives it the window from its start.
    fn begin(&mut self, gauge: u16, start: u64)
        requires { start ≤ MAX_SAMPLES }
        ensures { RowBegun gauge start self.old self.new }
    {
        empty_all(self.slots.as_mut_slice(), gauge, start);
        self.start = start;
    }

    /// Places a segment that begins at the `k`-th block, as `rows::place` does.
    pub(crate) fn place(&mut self, block: u32, k: usize, segment: &Segment) -> Option<Name>
        requires row { IsRow block segment.now.grid segment.now.gauge self.old }
        requires fits { CanPlace self.old.start block k segment.now }
        ensures start { self.new.start ≡ self.old.start }
        ensures placing { IsPlacing self.old.start block self.old.slots self.new.slots segment.now
            result }
    {
        place(self.slots.as_mut_slice(), self.start, block, k, segment)
    }

    /// The interval that begins with the window, or the empty segment there.
    pub(crate) fn front(&self) -> &Segment
        requires { 0 < length self.now.slots }
        ensures { (d : SegmentValue) → result.now ≡ slice_index_or self.now.slots 0 d }
    {
        &self.slots[0]
    }
}

// Takes all samples out of each segment. One that has none stays as it is, but for the first,
// which begins with the window.
fn empty_all(slots: &mut [Segment], gauge: u16, start: u64)
    requires { start ≤ MAX_SAMPLES }
    ensures { AllEmptied gauge start slots.old slots.new }
{
    for k in 0..slots.len() {
        if k == 0 || !is_empty(&slots[k]) {
            slots[k].clear(gauge, start);
        }
    }
}

/// Gives each row the window from its start.
pub(crate) fn begin_all(rows: &mut [Intervals], starts: &[u64])
    requires few { length rows.old ≤ MAX_GAUGES }
    requires all { length starts.now ≡ length rows.old }
    requires limit { (g : ℕ) → g < length starts.now → slice_index starts.now g ≤ MAX_SAMPLES }
    ensures { RowsBegun starts.now rows.old rows.new }
{
    for g in 0..rows.len() {
        rows[g].begin(g as u16, starts[g]);
    }
}
