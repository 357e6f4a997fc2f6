ghost use Rattle.std.specs.Prelude.{◌≡◌, ◌+◌, ◌<◌, ◌≤◌, ◌↔◌, ◌++◌, All, IsTrue, List, length, reverse, take};
ghost use Rattle.turning_points.specs.Pairs.{range};
ghost use Rattle.turning_points.specs.three_point.Run.{CountedRange, counted_range, live_after, ranges_counted, ranges_left};
ghost use Rattle.turning_points.specs.three_point.Ranges.{counted_range_of};

use crate::three_point::counter::RangeCounter;
use crate::three_point::ranges::Range;

/// Reads the next point, where the first `len` places are live, the newest last: steps 2 to 5. Says
/// how many are live then.
#[inline(always)]
pub fn read<C: RangeCounter>(live: &mut [u16], mut len: usize, point: u16, counter: &mut C) -> usize
    requires within { len < length live.old }
    requires below { All (λ x. x < C.classes counter.old) (take len live.old) }
    requires room { len ≤ C.room counter.old }
    ensures within { result ≤ len + 1 }
    ensures live { reverse (take result live.new) ≡ live_after point (reverse (take len live.old)) }
    ensures holds { (given : List CountedRange) → C.holds counter.old given →
        C.holds counter.new (given ++ ranges_counted point (reverse (take len live.old))) }
    ensures room { C.room counter.old + result ≤ C.room counter.new + len + 1 }
    ensures classes { C.classes counter.new ≡ C.classes counter.old }
{
    while len >= 2 && closes(live[len - 2], live[len - 1], point) {
        let first = live[len - 2];
        let second = live[len - 1];
        if len == 2 {
            // Y contains the starting point: it is a half cycle, and its second point is the start
            // from now on.
            counter.count(range_between(first, second, 1));
            live[0] = second;
            len = 1;
        } else {
            counter.count(range_between(first, second, 2));
            len -= 2;
        }
    }
    live[len] = point;
    len + 1
}

/// Counts the ranges between the first `len` places, which are live when no point is left to read:
/// step 6.
pub fn count_left<C: RangeCounter>(live: &[u16], len: usize, counter: &mut C)
    requires within { len ≤ length live.now }
    requires below { All (λ x. x < C.classes counter.old) (take len live.now) }
    requires room { len ≤ C.room counter.old }
    ensures holds { (given : List CountedRange) → C.holds counter.old given →
        C.holds counter.new (given ++ ranges_left (reverse (take len live.now))) }
    ensures room { C.room counter.old ≤ C.room counter.new + len }
    ensures classes { C.classes counter.new ≡ C.classes counter.old }
{
    for i in 1..len {
        counter.count(range_between(live[i - 1], live[i], 1));
    }
}

// Whether X, from `second` to the point that is read, is at least Y, from `first` to `second`.
#[inline(always)]
fn closes(first: u16, second: u16, point: u16) -> bool
    ensures { IsTrue result ↔ (range first second ≤ range second point) }
{
    first.abs_diff(second) <= second.abs_diff(point)
}

// So many half units of the range between two points.
#[inline(always)]
fn range_between(x: u16, y: u16, halves: u8) -> Range
    ensures { counted_range_of result ≡ counted_range x y halves }
{
    Range {
        lo: x.min(y),
        hi: x.max(y),
        halves,
    }
}
