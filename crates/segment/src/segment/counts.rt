ghost use Rattle.std.specs.Prelude.{◌≡◌, ◌≤◌, ◌<◌, ℤ, List, find, length, take};
ghost use Rattle.calibration.specs.Gain.{GainValue};
ghost use Rattle.calibration.specs.History.{history};
ghost use Rattle.turning_points.specs.Points.{points};
ghost use Rattle.tally.specs.Counts.{IsCounts, count_of, is_from};
ghost use Rattle.tally.specs.Room.{room_for};
ghost use Rattle.simple_counts.specs.level_crossing.Crossings.{crossing_count, crossings};
ghost use Rattle.simple_counts.specs.Simple.{peak_count, peaks_at, range_count, ranges_at, valley_count, valleys_at};
ghost use Rattle.segment.specs.Segment.{IsSegment, Stands};

use super::Segment;
use tally::Cell;

impl Segment {
    /// The full cycles of a pair of levels.
    pub fn cycles(&self, lo: u16, hi: u16) -> u64
        ensures { result ≡ count_of self.now.tally.cells lo hi }
    {
        self.tally.get(lo, hi)
    }

    /// The first pair with a full cycle at or after a pair, by the lower level and then by the
    /// higher one.
    pub fn next_cycle(&self, lo: u16, hi: u16) -> Option<Cell>
        ensures { result ≡ find (is_from lo hi) self.now.tally.cells }
    {
        self.tally.next(lo, hi)
    }

    /// How many pairs have a full cycle. Where the cycles lie in a log, this reads it once for each
    /// pair: [`Segment::write_cells`] tells it for less.
    pub fn cells(&self) -> u32
        ensures { result ≡ length self.now.tally.cells }
    {
        self.tally.cells()
    }

    /// The most pairs that may have a full cycle: what a buffer needs for them.
    pub fn room(&self) -> u32
        ensures room { result ≡ room_for self.now.grid.classes self.now.longest }
        ensures cells { length self.now.tally.cells ≤ result }
        ensures counts { IsCounts self.now.tally }
    {
        self.tally.room()
    }

    /// Writes the pairs with a full cycle, in order, to the front of a buffer, and says how many
    /// there are. Takes no memory, and the time of putting them in order. What a caller sees of the
    /// segment does not change.
    pub fn write_cells(&mut self, out: &mut [Cell]) -> usize
        requires room { length self.old.tally.cells ≤ length out.old }
        ensures cells { take result out.new ≡ self.old.tally.cells }
        ensures count { result ≡ length self.old.tally.cells }
        ensures unchanged { self.new ≡ self.old }
        ensures rules { IsSegment self.new }
    {
        self.tally.write_cells(out)
    }

    /// How often a boundary was crossed in the counted direction (5.1).
    pub fn crossings(&self, boundary: u16) -> u64
        requires from { 1 ≤ boundary }
        requires to { boundary < self.now.grid.classes }
        ensures value { result ≡ crossing_count self.now.crossings boundary }
        ensures stands { (gain : GainValue) (w : List ℤ) → Stands self.now gain w →
            result ≡ crossings self.now.grid.reference boundary (history self.now.grid gain w) }
    {
        self.crossings.at(boundary)
    }

    /// The peaks at a level (5.2).
    pub fn peaks(&self, level: u16) -> u64
        requires { level < self.now.grid.classes }
        ensures value { result ≡ peak_count self.now.simple level }
        ensures stands { (gain : GainValue) (w : List ℤ) → Stands self.now gain w →
            result ≡ peaks_at self.now.grid.reference level
            (points (history self.now.grid gain w)) }
    {
        self.simple.peaks(level)
    }

    /// The valleys at a level (5.2).
    pub fn valleys(&self, level: u16) -> u64
        requires { level < self.now.grid.classes }
        ensures value { result ≡ valley_count self.now.simple level }
        ensures stands { (gain : GainValue) (w : List ℤ) → Stands self.now gain w →
            result ≡ valleys_at self.now.grid.reference level
            (points (history self.now.grid gain w)) }
    {
        self.simple.valleys(level)
    }

    /// The half units of the simple ranges of this length, in classes (5.3).
    pub fn ranges(&self, k: u16) -> u64
        requires { k < self.now.grid.classes }
        ensures value { result ≡ range_count self.now.simple k }
        ensures stands { (gain : GainValue) (w : List ℤ) → Stands self.now gain w →
            result ≡ ranges_at k (points (history self.now.grid gain w)) }
    {
        self.simple.half_ranges(k)
    }
}
