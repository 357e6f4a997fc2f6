ghost use Rattle.std.specs.Prelude.{◌≡◌, ◌≤◌, ◌<◌, ◌+◌, ◌^◌, ℕ, All, length, slice_index};
ghost use Rattle.turning_points.specs.three_point.Run.{half_units_at_range, half_units_of_pair};
ghost use Rattle.four_point.specs.residue_join.HalfUnits.{neighbours};

use tally::tables::{add_if, raise};

/// How many neighbours in a residue are this pair of levels.
pub fn neighbours(residue: &[u16], lo: u16, hi: u16) -> u64
    ensures units { result ≡ half_units_of_pair lo hi (neighbours residue.now) }
    ensures few { result ≤ length residue.now }
{
    let mut count = 0;
    for i in 1..residue.len() {
        let (before, level) = (residue[i - 1], residue[i]);
        count += u64::from(lo == before.min(level) && hi == before.max(level));
    }
    count
}

/// Adds one half unit for each two neighbours in a residue, at the place of their range.
pub fn add_ranges(residue: &[u16], out: &mut [u64])
    requires below { All (λ level. level < length out.old) residue.now }
    requires room { (k : ℕ) → slice_index out.old k + length residue.now < 2 ^ 63 }
    ensures ranges { (k : ℕ) → slice_index out.new k ≡
        slice_index out.old k + half_units_at_range k (neighbours residue.now) }
    ensures length { length out.new ≡ length out.old }
{
    for i in 1..residue.len() {
        raise(out, usize::from(residue[i - 1].abs_diff(residue[i])));
    }
}

/// Adds one half unit for each two neighbours in a residue of which `lo` is the lower level, at the
/// place of the higher one.
pub fn add_above(residue: &[u16], lo: u16, out: &mut [u64])
    requires below { All (λ level. level < length out.old) residue.now }
    requires room { (k : ℕ) → slice_index out.old k + length residue.now < 2 ^ 63 }
    ensures pairs { (hi : ℕ) → slice_index out.new hi ≡
        slice_index out.old hi + half_units_of_pair lo hi (neighbours residue.now) }
    ensures length { length out.new ≡ length out.old }
{
    for i in 1..residue.len() {
        let (before, level) = (residue[i - 1], residue[i]);
        add_if(out, usize::from(before.max(level)), before.min(level) == lo);
    }
}
