ghost use Rattle.std.specs.Prelude.{◌≡◌, ℕ, ◌+◌, ◌-◌, ◌^◌, ◌<◌, ◌≤◌, ◌==◌, if◌then◌else◌, All, length, slice_index};
ghost use Rattle.turning_points.specs.three_point.Run.{half_units_at_range};
ghost use Rattle.turning_points.specs.three_point.Bounds.{IsWithin};

use std::marker::Model;

/// A range that was counted, between two levels with `lo < hi`: two half units for a cycle, one for
/// a half cycle.
#[derive(Clone, Copy, Debug, PartialEq, Eq)]
pub struct Range {
    pub lo: u16,
    pub hi: u16,
    pub halves: u8,
}

/// Ranges in the order in which they were counted.
#[derive(Debug, Drop)]
pub struct Ranges {
    items: Vec<Range>,
}

impl Model for Ranges {
    ghost use Rattle.std.specs.Prelude.{List};
    ghost use Rattle.turning_points.specs.declared.three_point.ranges.Range.{Range};

    ghost Value = { List Range };

    ghost view = { λ r. r.items.items };
}

impl Ranges {
    ghost use Rattle.turning_points.specs.three_point.Ranges.{counted_ranges};

    /// Takes a list over.
    pub fn from_vec(items: Vec<Range>) -> Self
        ensures { result ≡ items.items }
    {
        Ranges { items }
    }

    /// The ranges as a slice.
    pub fn as_slice(&self) -> &[Range]
        ensures { result.now ≡ self.now }
    {
        &self.items
    }

    /// Puts the half units at each range into `out`: place k gets those of the ranges between
    /// levels k apart, whatever it held. A half unit is half a cycle. Each range lies between
    /// levels below the number of places.
    pub fn half_units(&self, out: &mut [u64])
        requires within { All (IsWithin (length out.old)) (counted_ranges self.now) }
        ensures { (k : ℕ) → k < length out.old →
            slice_index out.new k ≡ half_units_at_range k (counted_ranges self.now) }
    {
        out.fill(0);
        for range in &self.items {
            add_half_units(*range, out);
        }
    }
}

// Adds the half units of one range at the place of its length.
fn add_half_units(range: Range, out: &mut [u64])
    requires ordered { range.lo ≤ range.hi }
    requires below { range.hi < length out.old }
    requires room { (k : ℕ) → slice_index out.old k + range.halves < 2 ^ 64 }
    ensures added { (k : ℕ) → k < length out.old → slice_index out.new k ≡
        slice_index out.old k + (if k == range.hi - range.lo then range.halves else 0) }
    ensures few { (k : ℕ) → slice_index out.new k ≤ slice_index out.old k + range.halves }
{
    out[usize::from(range.hi - range.lo)] += u64::from(range.halves);
}
