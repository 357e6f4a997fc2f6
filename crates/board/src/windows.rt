ghost use Rattle.std.specs.Prelude.{◌≡◌, ◌<◌, ◌≤◌, ℕ, ℤ, List, length, slice_index, IfOk};
ghost use Rattle.calibration.specs.declared.limits.TheConstants.{MAX_SAMPLES};
ghost use Rattle.board.specs.declared.block_pool.TheConstants.{MAX_BLOCK};
ghost use Rattle.board.specs.declared.TheConstants.{MAX_GAUGES};
ghost use Rattle.calibration.specs.Gain.{GainValue};
ghost use Rattle.board.specs.DepositAnswers.{IsBlockNumber};

use crate::OutOfMemory;
use crate::flow::BLOCKS_PER_WINDOW;
use crate::intervals::{Intervals, begin_all};
use calibration::Grid;
use segment::Segment;
use segment::segment_rules::Name;
use std::alloc::Global;
use std::marker::Model;

/// What a deposit did.
#[derive(Clone, Copy, Debug, PartialEq, Eq, Drop)]
pub enum Deposit {
    /// The segment was joined with the intervals beside it.
    Placed,
    /// The segment, of this name, is no block of the board's windows. Nothing has changed.
    Stranger(Name),
    /// The first sample is there already, in the interval of this name. Nothing has changed.
    Double(Name),
}

/// What was placed in a round: for each gauge intervals of samples without a gap, and the names in
/// order of arrival.
#[derive(Drop)]
pub struct Board {
    grid: Grid,
    block: u32,
    rows: Vec<Intervals>,
    arrivals: Vec<Name>,
}

impl Model for Board {
    ghost use Rattle.board.specs.Board.{BoardValue, IsBoard};
    ghost use Rattle.std.specs.Prelude.{◌≤◌, ◌*◌, vec_capacity, vec_len};
    ghost use Rattle.board.specs.declared.flow.TheConstants.{BLOCKS_PER_WINDOW};

    ghost Value = { BoardValue };

    ghost view = { λ b. record {
      grid = b.grid;
      block = b.block;
      rows = b.rows.items;
      arrivals = b.arrivals.items;
    } };

    ghost invariant = { λ b.
        (BLOCKS_PER_WINDOW * vec_len b.rows ≤ vec_capacity b.arrivals) × IsBoard (record {
          grid = b.grid;
          block = b.block;
          rows = b.rows.items;
          arrivals = b.arrivals.items;
        }) };
}

// The number of the name among the blocks of a window, where it is one.
fn number_in(start: u64, block: u32, gauges: usize, name: Name) -> Option<u64>
    requires start { start ≤ MAX_SAMPLES }
    requires block { (1 ≤ block) × (block ≤ MAX_BLOCK) }
    ensures { IsBlockNumber block gauges start name result }
{
    let length = block as u64;
    let is_known = (name.gauge as usize) < gauges;
    if !is_known || name.from < start || name.to <= name.from || name.to - name.from > length {
        return None;
    }
    let end = start + BLOCKS_PER_WINDOW as u64 * length;
    if (name.from - start) % length != 0 || name.to > end {
        return None;
    }
    Some((name.from - start) / length)
}

impl Board {
    ghost use Rattle.board.specs.Board.{IsBoard, IsBegun, SameBoard, CarriesSamples, StandsIn, IsFront};
    ghost use Rattle.board.specs.DepositAnswers.{IsDepositAnswer};

    /// An empty board for blocks of so many samples, whose windows begin at 0. Takes all memory
    /// that it will need.
    pub fn new(alloc: Global, gauges: u16, block: u32, grid: &Grid) -> Result<Board, OutOfMemory>
        requires gauges { gauges ≤ MAX_GAUGES }
        requires block { (1 ≤ block) × (block ≤ MAX_BLOCK) }
        ensures plan { IfOk result (λ b.
            (b.grid ≡ grid.now) × (b.block ≡ block) × (length b.rows ≡ gauges)) }
        ensures begun { IfOk result (λ b. IsBegun b (λ g. 0)) }
        ensures board { IfOk result IsBoard }
    {
        let mut rows = Vec::with_capacity(alloc, gauges as usize)?;
        for gauge in 0..gauges {
            rows.push_reserved(Intervals::new(alloc, grid, gauge, block)?);
        }
        let arrivals = Vec::with_capacity(alloc, BLOCKS_PER_WINDOW * gauges as usize)?;
        Ok(Board {
            grid: *grid,
            block,
            rows,
            arrivals,
        })
    }

    /// Empties the board, and gives each gauge the window from its start.
    pub fn begin(&mut self, starts: &[u64])
        requires all { length starts.now ≡ length self.old.rows }
        requires limit { (g : ℕ) → g < length starts.now → slice_index starts.now g ≤ MAX_SAMPLES }
        ensures plan { (self.new.grid ≡ self.old.grid) × (self.new.block ≡ self.old.block)
            × (length self.new.rows ≡ length self.old.rows) }
        ensures begun { IsBegun self.new (λ g. slice_index starts.now g) }
        ensures board { IsBoard self.new }
    {
        begin_all(self.rows.as_mut_slice(), starts);
        self.arrivals.clear();
    }

    /// Joins the segment with the intervals beside it, unless it is no block of its window or its
    /// first sample is there already. Takes no memory.
    pub fn deposit(&mut self, seg: &Segment) -> Deposit
        requires grid { seg.now.grid ≡ self.old.grid }
        ensures answer { IsDepositAnswer self.old self.new seg.now result }
        ensures same { SameBoard self.old self.new }
        ensures carries { (gain : ℕ → GainValue) (w : ℕ → List ℤ) → CarriesSamples self.old gain w →
            StandsIn seg.now (gain seg.now.gauge) (w seg.now.gauge) →
            CarriesSamples self.new gain w }
        ensures board { IsBoard self.new }
    {
        let name = seg.name();
        let gauge = name.gauge as usize;
        if gauge >= self.rows.len() {
            return Deposit::Stranger(name);
        }
        let start = self.rows[gauge].start();
        let Some(number) = number_in(start, self.block, self.rows.len(), name) else {
            return Deposit::Stranger(name);
        };
        match self.rows[gauge].place(self.block, number as usize, seg) {
            Some(interval) => Deposit::Double(interval),
            None => {
                self.arrivals.push_reserved(name);
                Deposit::Placed
            }
        }
    }

    /// The interval that begins with the window of a gauge, or the empty segment there.
    pub fn front(&self, gauge: u16) -> &Segment
        requires { gauge < length self.now.rows }
        ensures { IsFront self.now gauge result.now }
    {
        self.rows[gauge as usize].front()
    }

    /// The placed names in order of arrival since the last `begin`.
    pub fn arrivals(&self) -> &[Name]
        ensures { result.now ≡ self.now.arrivals }
    {
        &self.arrivals
    }
}
