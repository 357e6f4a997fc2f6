ghost use Rattle.std.specs.Prelude.{◌≡◌, ◌++◌, ◌*◌, ◌≤◌, ℕ, ℤ, List, IfOk, find};
ghost use Rattle.calibration.specs.Gain.{GainValue};
ghost use Rattle.calibration.specs.History.{history};
ghost use Rattle.turning_points.specs.Points.{points};
ghost use Rattle.tally.specs.Counts.{count_of, is_from, total_of};
ghost use Rattle.four_point.specs.Residue.{AddsCycles};
ghost use Rattle.segment.specs.Segment.{Stands};
ghost use Rattle.repeating.specs.Repeating.{repeating_cycles};
ghost use Rattle.repeating.specs.Value.{IsRepeating, no_cycles};

use crate::copying::copy_cycles;
use calibration::Grid;
use four_point::Reducer;
use four_point::residue_join::join_residue;
use segment::Segment;
use std::alloc::{AllocError, Global};
use std::marker::Model;
use tally::{Cell, Tally};

/// The cycles of a history that repeats, by pair of levels.
#[derive(Drop)]
pub struct Repeating {
    grid: Grid,
    tally: Tally,
    reducer: Reducer,
    row: Vec<u64>,
}

// Clauses see the grid and the cycles.
impl Model for Repeating {
    ghost use Rattle.std.specs.Prelude.{◌≡◌, length};
    ghost use Rattle.repeating.specs.Value.{IsRepeating, RepeatingValue};

    ghost Value = { RepeatingValue };

    ghost view = { λ r. record { grid = r.grid; tally = r.tally } };

    ghost invariant = { λ r. IsRepeating (record { grid = r.grid; tally = r.tally })
        × (r.reducer.classes ≡ r.grid.classes) × (length r.row.items ≡ r.grid.classes) };
}

impl Repeating {
    /// Of no history: all counts are 0. This takes all memory that it will need.
    pub fn new(alloc: Global, grid: &Grid) -> Result<Repeating, AllocError>
        ensures empty { IfOk result (λ r. r ≡ no_cycles grid.now) }
        ensures rules { IfOk result IsRepeating }
    {
        let classes = grid.classes();
        let most = classes as u32 * (classes as u32 - 1) / 2;
        let tally = Tally::new(alloc, classes, most)?;
        let reducer = Reducer::new(alloc, classes)?;
        let row = vec![in alloc; 0; classes as usize]?;
        Ok(Repeating {
            grid: *grid,
            tally,
            reducer,
            row,
        })
    }

    /// Counts the history of a segment, repeating, in place of the one before: the segment's full
    /// cycles, and those that its residue closes when it is put behind itself. Takes no memory.
    pub fn of(&mut self, seg: &Segment)
        requires { seg.now.grid ≡ self.old.grid }
        ensures cycles { AddsCycles
            (points (seg.now.reducer.residue ++ seg.now.reducer.residue))
            (count_of seg.now.tally.cells) seg.now.reducer.residue
            (count_of self.new.tally.cells) }
        ensures stands { (gain : GainValue) (w : List ℤ) → Stands seg.now gain w →
            (lo hi : ℕ) → count_of self.new.tally.cells lo hi ≡
            repeating_cycles (history seg.now.grid gain w) lo hi }

        // A cycle is two half units, and a reading adds no more than one.
        ensures few { 2 * total_of self.new.tally.cells ≤ seg.now.used }
        ensures grid { self.new.grid ≡ self.old.grid }
        ensures rules { IsRepeating self.new }
    {
        // What holds of every segment only a call of it tells; this costs nothing.
        let (_grid, _room) = (seg.grid(), seg.room());
        let residue = seg.residue();
        self.tally.clear();
        copy_cycles(&mut self.tally, seg, &mut self.row);
        let _is_residue = self.reducer.load(residue);
        join_residue(&mut self.reducer, residue, &mut self.tally);
        let _counts = self.tally.classes();
    }

    /// The grid of its classes.
    pub fn grid(&self) -> Grid
        ensures value { result ≡ self.now.grid }
        ensures rules { IsRepeating self.now }
    {
        self.grid
    }

    /// The cycles of a pair of levels, 0 where `lo < hi < classes` does not hold.
    pub fn cycles(&self, lo: u16, hi: u16) -> u64
        ensures { result ≡ count_of self.now.tally.cells lo hi }
    {
        self.tally.get(lo, hi)
    }

    /// The first pair with a cycle at or after a pair, by the lower level and then by the higher
    /// one.
    pub fn next(&self, lo: u16, hi: u16) -> Option<Cell>
        ensures { result ≡ find (is_from lo hi) self.now.tally.cells }
    {
        self.tally.next(lo, hi)
    }
}
