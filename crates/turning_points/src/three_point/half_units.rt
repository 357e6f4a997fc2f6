ghost use Rattle.std.specs.Prelude.{◌≡◌, ℕ, ◌+◌, ◌-◌, ◌^◌, ◌<◌, ◌≤◌, ◌==◌, ◌∷◌, ◌++◌, [], if◌then◌else◌, List, length, replicate, slice_index, sum, IfOk};
ghost use Rattle.turning_points.specs.three_point.Run.{CountedRange, half_units_at_range};
ghost use Rattle.turning_points.specs.three_point.Ranges.{counted_range_of};
ghost use Rattle.turning_points.specs.three_point.Bounds.{IsWithin};

use crate::three_point::counter::RangeCounter;
use crate::three_point::ranges::Range;
use std::alloc::{AllocError, Global};
use std::marker::Model;

/// Half units by range: place k has those of the ranges between levels k apart. A half unit is half
/// a cycle.
#[derive(Debug, Drop)]
pub struct HalfUnits {
    counts: Vec<u64>,
}

impl Model for HalfUnits {
    ghost use Rattle.std.specs.Prelude.{List, ℕ};

    ghost Value = { List ℕ };

    ghost view = { λ h. h.counts.items };
}

impl HalfUnits {
    /// No half units, of ranges between levels below `classes`. Takes memory once, a place for each
    /// range.
    pub fn new(alloc: Global, classes: u16) -> Result<HalfUnits, AllocError>
        ensures zeros { IfOk result (λ half_units. half_units ≡ replicate classes 0) }
        ensures classes { IfOk result (λ half_units. length half_units ≡ classes) }
        ensures total { IfOk result (λ half_units. sum half_units ≡ 0) }
    {
        Ok(HalfUnits {
            counts: vec![in alloc; 0; classes as usize]?,
        })
    }

    /// The half units at each range.
    pub fn as_slice(&self) -> &[u64]
        ensures { result.now ≡ self.now }
    {
        &self.counts
    }
}

impl RangeCounter for HalfUnits {
    ghost classes = { λ h. length h };

    ghost room = { λ h. 2 ^ 64 - 1 - sum h };

    ghost holds = { λ h given.
        (k : ℕ) → k < length h → slice_index h k ≡ half_units_at_range k given };

    // Adds the half units of one range at the place of its length.
    #[inline(always)]
    fn count(&mut self, range: Range)
        requires within { IsWithin (length self.old) (counted_range_of range) }
        requires room { range.halves ≤ 2 ^ 64 - 1 - sum self.old }
        ensures holds { (given : List CountedRange) →
            ((k : ℕ) → k < length self.old → slice_index self.old k ≡ half_units_at_range k given) →
            ((k : ℕ) → k < length self.new →
            slice_index self.new k ≡
            half_units_at_range k (given ++ counted_range_of range ∷ [])) }
        ensures room { 2 ^ 64 - 1 - sum self.old ≤ 2 ^ 64 - 1 - sum self.new + range.halves }
        ensures classes { length self.new ≡ length self.old }

        ensures added { (k : ℕ) → k < length self.old → slice_index self.new k ≡
            slice_index self.old k + (if k == range.hi - range.lo then range.halves else 0) }
        ensures total { sum self.new ≡ sum self.old + range.halves }
    {
        self.counts[usize::from(range.hi - range.lo)] += u64::from(range.halves);
    }
}
