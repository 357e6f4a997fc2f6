ghost use Rattle.std.specs.Prelude.{◌≡◌, ℕ, ◌+◌, ◌≤◌, ◌∷◌, ◌++◌, [], List};
ghost use Rattle.turning_points.specs.three_point.Run.{CountedRange};
ghost use Rattle.turning_points.specs.three_point.Ranges.{counted_range_of};
ghost use Rattle.turning_points.specs.three_point.Bounds.{IsWithin};

use crate::three_point::ranges::Range;

/// Whoever is handed the ranges of a run, each as it is counted.
pub trait RangeCounter {
    /// It takes ranges between levels below this number.
    ghost classes: { Self → ℕ };

    /// So many half units more it surely takes.
    ghost room: { Self → ℕ };

    /// Whether these are the ranges that it was handed, in their order, as far as it tells.
    ghost holds: { Self → List CountedRange → Type 0 };

    /// Takes the next range.
    fn count(&mut self, range: Range)
        requires within { IsWithin (classes self.old) (counted_range_of range) }
        requires room { range.halves ≤ room self.old }
        ensures holds { (given : List CountedRange) → holds self.old given →
            holds self.new (given ++ counted_range_of range ∷ []) }
        ensures room { room self.old ≤ room self.new + range.halves }
        ensures classes { classes self.new ≡ classes self.old };
}
