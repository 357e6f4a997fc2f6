ghost use Rattle.std.specs.Prelude.{◌≡◌, ◌≤◌, ◌<◌, ◌-◌, ◌^◌, ℕ, ℤ, List, length, slice_index};
ghost use Rattle.calibration.specs.Gain.{GainValue};
ghost use Rattle.calibration.specs.History.{history};
ghost use Rattle.turning_points.specs.three_point.Run.{half_units, three_point};
ghost use Rattle.turning_points.specs.three_point.Sums.{sum_at_range};
ghost use Rattle.segment.specs.Segment.{Stands};
ghost use Rattle.segment.specs.Figures.{doubled_cycles, halves_of};

use super::Segment;
use crate::neighbours::{add_above, add_ranges, neighbours};

impl Segment {
    /// The half units of a pair of levels in the rainflow count (5.4.4): two for each full cycle,
    /// and one for each two neighbours in the residue that are this pair.
    pub fn halves(&self, lo: u16, hi: u16) -> u64
        ensures value { result ≡ halves_of self.now lo hi }
        ensures few { result ≤ 2 ^ 42 }
        ensures stands { (gain : GainValue) (w : List ℤ) → Stands self.now gain w →
            result ≡ three_point (history self.now.grid gain w) lo hi }
    {
        self.halves_there(lo, hi)
    }

    fn halves_there(&self, lo: u16, hi: u16) -> u64
        ensures value { result ≡ halves_of self.now lo hi }
        ensures few { result ≤ 2 ^ 42 }
    {
        self.doubled_cycles(lo, hi) + neighbours(self.reducer.residue(), lo, hi)
    }

    // The half units of the full cycles of a pair.
    fn doubled_cycles(&self, lo: u16, hi: u16) -> u64
        ensures value { result ≡ doubled_cycles self.now lo hi }
        ensures few { result ≤ 2 ^ 41 }
    {
        2 * self.tally.get(lo, hi)
    }

    // Those of the full cycles of so long a range.
    fn cycles_at(&self, k: u16) -> u64
        requires { k < self.now.grid.classes }
        ensures value { result ≡
            sum_at_range (doubled_cycles self.now) k (self.now.grid.classes - k) }
        ensures few { result ≤ 2 ^ 62 }
    {
        let mut sum = 0;
        for lo in 0..self.grid().classes() - k {
            sum += self.doubled_cycles(lo, lo + k);
        }
        sum
    }

    fn put_cycles(&self, out: &mut [u64])
        requires { length out.old ≡ self.now.grid.classes }
        ensures none { slice_index out.new 0 ≡ 0 }
        ensures each { (k : ℕ) → 1 ≤ k → k < self.now.grid.classes → slice_index out.new k ≡
            sum_at_range (doubled_cycles self.now) k (self.now.grid.classes - k) }
        ensures few { (k : ℕ) → slice_index out.new k ≤ 2 ^ 62 }
        ensures length { length out.new ≡ length out.old }
    {
        let classes = self.grid().classes();
        out.fill(0);
        for k in 1..classes {
            out[usize::from(k)] = self.cycles_at(k);
        }
    }

    /// The half units at each range of the rainflow count: place `k` becomes those of all pairs `k`
    /// classes apart, and place 0 becomes 0.
    pub fn half_units(&self, out: &mut [u64])
        requires { length out.old ≡ self.now.grid.classes }
        ensures none { slice_index out.new 0 ≡ 0 }
        ensures each { (k : ℕ) → 1 ≤ k → k < self.now.grid.classes → slice_index out.new k ≡
            sum_at_range (halves_of self.now) k (self.now.grid.classes - k) }
        ensures stands { (gain : GainValue) (w : List ℤ) → Stands self.now gain w →
            (k : ℕ) → 1 ≤ k → k < self.now.grid.classes →
            slice_index out.new k ≡ half_units (history self.now.grid gain w) k }
        ensures length { length out.new ≡ length out.old }
    {
        self.put_cycles(out);
        add_ranges(self.reducer.residue(), out);
    }

    /// The half units of all pairs with this lower level: place `hi` becomes those of the pair, for
    /// each level `hi` above `lo`.
    pub fn halves_above(&self, lo: u16, out: &mut [u64])
        requires level { lo < self.now.grid.classes }
        requires places { length out.old ≡ self.now.grid.classes }
        ensures each { (hi : ℕ) → lo < hi → hi < self.now.grid.classes →
            slice_index out.new hi ≡ halves_of self.now lo hi }
        ensures stands { (gain : GainValue) (w : List ℤ) → Stands self.now gain w →
            (hi : ℕ) → lo < hi → hi < self.now.grid.classes →
            slice_index out.new hi ≡ three_point (history self.now.grid gain w) lo hi }
        ensures length { length out.new ≡ length out.old }
    {
        self.put_cycles_above(lo, out);
        add_above(self.reducer.residue(), lo, out);
    }

    fn put_cycles_above(&self, lo: u16, out: &mut [u64])
        requires level { lo < self.now.grid.classes }
        requires places { length out.old ≡ self.now.grid.classes }
        ensures each { (hi : ℕ) → lo < hi → hi < self.now.grid.classes →
            slice_index out.new hi ≡ doubled_cycles self.now lo hi }
        ensures few { (k : ℕ) → slice_index out.new k ≤ 2 ^ 62 }
        ensures length { length out.new ≡ length out.old }
    {
        let classes = self.grid().classes();
        out.fill(0);
        for hi in lo + 1..classes {
            out[usize::from(hi)] = self.doubled_cycles(lo, hi);
        }
    }
}
