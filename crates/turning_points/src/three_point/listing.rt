ghost use Rattle.std.specs.Prelude.{◌≡◌, ◌+◌, ◌≤◌, ◌∷◌, ◌++◌, [], List, IfOk, vec_len, vec_capacity};
ghost use Rattle.turning_points.specs.Points.{points as points_of};
ghost use Rattle.turning_points.specs.three_point.Run.{CountedRange, run};
ghost use Rattle.turning_points.specs.three_point.Ranges.{counted_range_of, counted_ranges};
ghost use Rattle.turning_points.specs.three_point.Bounds.{IsWithin};

use crate::three_point::counter::RangeCounter;
use crate::three_point::ranges::{Range, Ranges};
use crate::three_point::reading::{count_left, read};
use std::alloc::{AllocError, Global};

/// Counts the ranges of a list of points by the three-point count of ASTM E1049-85, 5.4.4, in the
/// order of the standard's steps: those of step 6 come last, in order of the history.
///
/// Takes memory twice: room for the answer and for the live points. Time is in proportion to the
/// number of points.
pub fn astm(alloc: Global, points: &[u16]) -> Result<Ranges, AllocError>
    requires { points_of points.now ≡ points.now }
    ensures { IfOk result (λ ranges. counted_ranges ranges ≡ run [] points.now) }
{
    let mut ranges = RangeList {
        items: Vec::with_capacity(alloc, points.len())?,
    };
    let mut places = vec![in alloc; 0; points.len()]?;
    let live = places.as_mut_slice();
    let mut len = 0;
    for &point in points {
        len = read(live, len, point, &mut ranges);
    }
    count_left(live, len, &mut ranges);
    Ok(Ranges::from_vec(ranges.items))
}

// Keeps each range, in a list that was reserved before.
#[derive(Drop)]
struct RangeList {
    items: Vec<Range>,
}

impl RangeCounter for RangeList {
    ghost use Rattle.std.specs.Prelude.{◌-◌, ◌^◌};

    ghost classes = { λ list. 2 ^ 16 };

    ghost room = { λ list. vec_capacity list.items - vec_len list.items };

    ghost holds = { λ list given. counted_ranges list.items.items ≡ given };

    fn count(&mut self, range: Range)
        requires within { IsWithin (2 ^ 16) (counted_range_of range) }
        requires room { range.halves ≤ vec_capacity self.old.items - vec_len self.old.items }
        ensures holds { (given : List CountedRange) → counted_ranges self.old.items.items ≡ given →
            counted_ranges self.new.items.items ≡ given ++ counted_range_of range ∷ [] }
        ensures room { vec_capacity self.old.items - vec_len self.old.items
            ≤ vec_capacity self.new.items - vec_len self.new.items + range.halves }
    {
        self.items.push_reserved(range);
    }
}
