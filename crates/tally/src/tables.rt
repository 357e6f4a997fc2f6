//! Tables of counts, and what changes them.
//!
//! The functions on slices are those that a loop calls. Those on a `Vec` lend it to them, so that
//! the clauses of a caller speak of the items of its fields.

ghost use Rattle.tally.specs.tables.Tables.{sum_of_tables, table_with_bins, lower, raise};
ghost use Rattle.std.specs.Prelude.{All, if◌then◌else◌, slice_index, length, replicate, ◌+◌, ◌<◌, ◌≡◌, ◌≤◌, ◌^◌, ℕ};

use crate::Bin;

/// One more at a place.
pub fn raise(table: &mut [u64], place: usize)
    requires within { place < length table.old }
    requires room { slice_index table.old place < 2 ^ 63 }
    ensures { table.new ≡ raise table.old place }
{
    table[place] += 1;
}

/// One less at a place.
pub fn lower(table: &mut [u64], place: usize)
    requires within { place < length table.old }
    requires there { 1 ≤ slice_index table.old place }
    ensures { table.new ≡ lower table.old place }
{
    table[place] -= 1;
}

/// Adds one table to another, place by place.
pub fn add_all(left: &mut [u64], right: &[u64])
    requires same { length left.old ≡ length right.now }
    requires room { (k : ℕ) → slice_index left.old k + slice_index right.now k < 2 ^ 63 }
    ensures { left.new ≡ sum_of_tables left.old right.now }
{
    for i in 0..left.len() {
        left[i] += right[i];
    }
}

/// Adds one table to another, place by place.
pub fn add_to(left: &mut Vec<u64>, right: &[u64])
    requires same { length left.old.items ≡ length right.now }
    requires room { (k : ℕ) → slice_index left.old.items k + slice_index right.now k < 2 ^ 63 }
    ensures { left.new.items ≡ sum_of_tables left.old.items right.now }
{
    add_all(left, right);
}

/// Makes each count 0.
pub fn empty(table: &mut Vec<u64>)
    ensures { table.new.items ≡ replicate (length table.old.items) 0 }
{
    zero(table);
}

fn zero(table: &mut [u64])
    ensures { table.new ≡ replicate (length table.old) 0 }
{
    table.fill(0);
}

/// One more at a place, where it is asked for: without a branch.
pub fn add_if(table: &mut [u64], place: usize, yes: bool)
    requires within { place < length table.old }
    requires room { slice_index table.old place < 2 ^ 63 }
    ensures { table.new ≡ if yes then raise table.old place else table.old }
{
    table[place] += u64::from(yes);
}

/// Puts the count of each bin at its key's place, so many places further on.
pub fn fill(table: &mut Vec<u64>, by: u16, bins: &[Bin])
    requires { All (λ b. b.key + by < length table.old.items) bins.now }
    ensures filled { table.new.items ≡ table_with_bins by table.old.items bins.now }
    ensures long { length table.new.items ≡ length table.old.items }
{
    for bin in bins {
        table[usize::from(bin.key) + usize::from(by)] = bin.n;
    }
}
