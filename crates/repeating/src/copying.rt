ghost use Rattle.std.specs.Prelude.{◌≡◌, ℕ, ◌+◌, ◌≤◌, ◌^◌, ◌==◌, if◌then◌else◌, [], length};
ghost use Rattle.tally.specs.Counts.{IsCounts, HasGreatestRoom, count_of, total_of};
ghost use Rattle.tally.specs.declared.cells.TheConstants.{MAX_TOTAL};
ghost use Rattle.segment.specs.Segment.{IsSegment};

use segment::Segment;
use tally::Tally;

// Adds the full cycles of the pairs with this lower level. The row is a buffer for them.
fn add_row(tally: &mut Tally, segment: &Segment, lo: u16, row: &mut [u64])
    requires rules { IsSegment segment.now }
    requires held { IsCounts segment.now.tally }
    requires counts { IsCounts tally.old }
    requires row { lo + 1 + length row.old ≡ segment.now.grid.classes }
    requires classes { tally.old.classes ≡ segment.now.grid.classes }
    requires room { HasGreatestRoom tally.old }
    requires total { total_of tally.old.cells + 2 ^ 50 ≤ MAX_TOTAL }
    ensures added { (a b : ℕ) → count_of tally.new.cells a b ≡ count_of tally.old.cells a b +
        (if a == lo then count_of segment.now.tally.cells a b else 0) }
    ensures total { total_of tally.new.cells ≤ total_of tally.old.cells + 2 ^ 50 }
    ensures classes { tally.new.classes ≡ tally.old.classes }
    ensures room { tally.new.room ≡ tally.old.room }
    ensures counts { IsCounts tally.new }
    ensures length { length row.new ≡ length row.old }
{
    segment.write_cycles(lo, row);
    let mut hi = lo;
    for &n in row.iter() {
        hi += 1;
        tally.add(lo, hi, n);
    }
}

/// Puts the full cycles of a segment into an empty tally. The row is a buffer with a place for each
/// class.
pub fn copy_cycles(tally: &mut Tally, segment: &Segment, row: &mut [u64])
    requires rules { IsSegment segment.now }
    requires held { IsCounts segment.now.tally }
    requires counts { IsCounts tally.old }
    requires empty { tally.old.cells ≡ [] }
    requires row { length row.old ≡ segment.now.grid.classes }
    requires classes { tally.old.classes ≡ segment.now.grid.classes }
    requires room { HasGreatestRoom tally.old }
    ensures cells { tally.new.cells ≡ segment.now.tally.cells }
    ensures classes { tally.new.classes ≡ tally.old.classes }
    ensures room { tally.new.room ≡ tally.old.room }
    ensures counts { IsCounts tally.new }
    ensures length { length row.new ≡ length row.old }
{
    for lo in 0..tally.classes() - 1 {
        add_row(tally, segment, lo, &mut row[usize::from(lo) + 1..]);
    }
}
