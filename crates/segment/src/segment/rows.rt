ghost use Rattle.std.specs.Prelude.{◌≡◌, ◌+◌, ◌<◌, ℕ, length, slice_index};
ghost use Rattle.tally.specs.Counts.{count_of};

use super::Segment;

impl Segment {
    /// Writes the full cycles of the pairs `(lo, lo + 1)`, `(lo, lo + 2)`, .. to a buffer with a
    /// place for each. A table of a tally copies them, a log is read once.
    pub fn write_cycles(&self, lo: u16, out: &mut [u64])
        requires { lo + 1 + length out.old ≡ self.now.grid.classes }
        ensures { (k : ℕ) → k < length out.new →
            slice_index out.new k ≡ count_of self.now.tally.cells lo (lo + 1 + k) }
    {
        let _classes = self.tally.classes();
        self.tally.write_row(lo, out);
    }
}
