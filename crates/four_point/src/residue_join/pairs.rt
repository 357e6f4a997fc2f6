ghost use Rattle.std.specs.Prelude.{◌≡◌, ℕ, ◌+◌, ◌-◌, ◌<◌, ◌≤◌, ◌∷◌, ◌++◌, [], List, IfOk};
ghost use Rattle.tally.specs.Counts.{count_of, total_of, most_cells};
ghost use Rattle.calibration.specs.declared.grid.TheConstants.{MIN_CLASSES, MAX_CLASSES};
ghost use Rattle.tally.specs.declared.cells.TheConstants.{MAX_TOTAL};
ghost use Rattle.turning_points.specs.three_point.Run.{CountedRange, half_units_of_pair};
ghost use Rattle.turning_points.specs.three_point.Ranges.{counted_range_of};
ghost use Rattle.turning_points.specs.three_point.Bounds.{IsWithin};

use std::alloc::{AllocError, Global};
use std::marker::Model;
use tally::Tally;
use turning_points::three_point::{Range, RangeCounter};

/// Half units by pair of levels, as a run counts them: what the standard's count of a history is
/// compared by. A half unit is half a cycle.
#[derive(Debug, Drop)]
pub struct PairCounter {
    tally: Tally,
}

// Clauses see the tally.
impl Model for PairCounter {
    ghost use Rattle.tally.specs.Counts.{Counts, HasGreatestRoom};

    ghost Value = { Counts };

    ghost view = { λ p. p.tally };

    ghost invariant = { λ p. HasGreatestRoom p.tally };
}

impl PairCounter {
    /// No half units, over 2 to 1024 classes. Takes the memory of a tally with room for each pair.
    pub fn new(alloc: Global, classes: u16) -> Result<PairCounter, AllocError>
        requires few { MIN_CLASSES ≤ classes }
        requires many { classes ≤ MAX_CLASSES }
        ensures { IfOk result
            (λ pairs. pairs ≡ record { classes = classes; room = most_cells classes; cells = [] }) }
    {
        let most = classes as u32 * (classes as u32 - 1) / 2;
        Ok(PairCounter {
            tally: Tally::new(alloc, classes, most)?,
        })
    }

    /// The half units of each pair.
    pub fn tally(&self) -> &Tally
        ensures { result.now ≡ self.now }
    {
        &self.tally
    }
}

impl RangeCounter for PairCounter {
    ghost classes = { λ t. t.classes };

    ghost room = { λ t. MAX_TOTAL - total_of t.cells };

    ghost holds = { λ t given. (lo hi : ℕ) → lo < hi → count_of t.cells lo hi ≡
        half_units_of_pair lo hi given };

    // Adds the half units of one range to those of its pair.
    #[inline(always)]
    fn count(&mut self, range: Range)
        requires within { IsWithin self.old.classes (counted_range_of range) }
        requires room { range.halves ≤ MAX_TOTAL - total_of self.old.cells }
        ensures holds { (given : List CountedRange) →
            ((lo hi : ℕ) → lo < hi → count_of self.old.cells lo hi ≡
            half_units_of_pair lo hi given) →
            ((lo hi : ℕ) → lo < hi → count_of self.new.cells lo hi ≡
            half_units_of_pair lo hi (given ++ counted_range_of range ∷ [])) }
        ensures room { MAX_TOTAL - total_of self.old.cells
            ≤ MAX_TOTAL - total_of self.new.cells + range.halves }
        ensures classes { self.new.classes ≡ self.old.classes }
    {
        // Two points of a run differ, but nothing is asked of the levels pushed.
        if range.lo < range.hi {
            self.tally.add(range.lo, range.hi, u64::from(range.halves));
        }
    }
}
