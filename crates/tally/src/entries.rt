ghost use Rattle.std.specs.Prelude.{◌≡◌, ℕ, ◌+◌, ◌*◌, ◌^◌, ◌<◌, ◌≤◌, ◌==◌, ◌&&◌, if◌then◌else◌, All, Option, None, find, take, length, vec_capacity, slice_index};
ghost use Rattle.std.specs.List.Sorted.{IsNonDecreasingBy};
ghost use Rattle.turning_points.specs.Pairs.{is_pair};
ghost use Rattle.tally.specs.Counts.{IsCell, total_of, is_from, pair_of};
ghost use Rattle.tally.specs.Log.{amount, first_with, cells_of, rank};
ghost use Rattle.calibration.specs.declared.grid.TheConstants.{MAX_CLASSES};

use crate::cells::Cell;

// Whether the pair of a cell is this one.
#[inline(always)]
fn has_pair(cell: &Cell, lo: u16, hi: u16) -> bool
    ensures { result ≡ is_pair lo hi (pair_of cell.now) }
{
    lo == cell.lo && hi == cell.hi
}

// What a cell holds of a pair.
fn part(cell: &Cell, lo: u16, hi: u16) -> u64
    ensures { result ≡ (if is_pair lo hi (pair_of cell.now) then cell.now.n else 0) }
{
    if has_pair(cell, lo, hi) { cell.n } else { 0 }
}

/// What entries hold of a pair.
pub fn amount_in(entries: &[Cell], lo: u16, hi: u16) -> u64
    requires total { total_of entries.now < 2 ^ 64 }
    ensures { result ≡ amount entries.now lo hi }
{
    let mut sum = 0;
    for entry in entries {
        sum += part(entry, lo, hi);
    }
    sum
}

// Whether a cell is at or after a pair.
fn stands_from(cell: &Cell, lo: u16, hi: u16) -> bool
    ensures { result ≡ is_from lo hi cell.now }
{
    lo < cell.lo || (lo == cell.lo && hi <= cell.hi)
}

// The first cell at or after a pair, with one entry more.
fn first_with(found: Option<Cell>, entry: &Cell, lo: u16, hi: u16) -> Option<Cell>
    requires fits { (c : Cell) → found ≡ Some c → c.n + entry.now.n < 2 ^ 64 }
    ensures { result ≡ first_with lo hi entry.now found }
{
    if !stands_from(entry, lo, hi) {
        return found;
    }
    let Some(first) = found else {
        return Some(*entry);
    };
    if has_pair(&first, entry.lo, entry.hi) {
        return Some(Cell {
            n: first.n + entry.n,
            ..first
        });
    }
    if stands_from(&first, entry.lo, entry.hi) {
        return Some(*entry);
    }
    Some(first)
}

/// The first cell at or after a pair of those that entries come to.
pub fn first_in(entries: &[Cell], lo: u16, hi: u16) -> Option<Cell>
    requires each { All (IsCell MAX_CLASSES) entries.now }
    requires total { total_of entries.now < 2 ^ 64 }
    ensures { result ≡ find (is_from lo hi) (cells_of entries.now) }
{
    let mut found = None;
    for entry in entries {
        found = first_with(found, entry, lo, hi);
    }
    found
}

// Adds an entry to the counts of a row, if it is of it.
fn add_to_row(out: &mut [u64], lo: u16, entry: &Cell)
    requires ordered { entry.now.lo < entry.now.hi }
    requires within { entry.now.hi < lo + 1 + length out.old }
    requires fits { (k : ℕ) → slice_index out.old k + entry.now.n < 2 ^ 64 }
    ensures { (k : ℕ) → slice_index out.new k ≡ slice_index out.old k
        + (if is_pair lo (lo + 1 + k) (pair_of entry.now) then entry.now.n else 0) }
{
    if entry.lo == lo {
        out[usize::from(entry.hi - lo - 1)] += entry.n;
    }
}

/// What entries hold of the pairs `(lo, lo + 1)`, `(lo, lo + 2)`, ..
pub fn put_row(entries: &[Cell], lo: u16, out: &mut [u64])
    requires each { All (IsCell (lo + 1 + length out.old)) entries.now }
    requires total { total_of entries.now < 2 ^ 64 }
    ensures { (k : ℕ) → k < length out.new →
        slice_index out.new k ≡ amount entries.now lo (lo + 1 + k) }
{
    out.fill(0);
    for entry in entries {
        add_to_row(out, lo, entry);
    }
}

/// How many different pairs entries have. Reads all entries once for each pair.
pub fn pairs_in(entries: &[Cell]) -> usize
    requires each { All (IsCell MAX_CLASSES) entries.now }
    requires total { total_of entries.now < 2 ^ 64 }
    ensures { result ≡ length (cells_of entries.now) }
{
    let mut pairs = 0;
    let mut next = first_in(entries, 0, 0);
    for _ in 0..entries.len() {
        if let Some(cell) = next {
            pairs += 1;
            next = first_in(entries, cell.lo, cell.hi + 1);
        }
    }
    pairs
}

// Puts equal pairs of an ordered list together, at its front. Says how many cells that makes.
fn put_together(entries: &mut [Cell]) -> usize
    requires ordered { IsNonDecreasingBy rank entries.old }
    requires each { All (IsCell MAX_CLASSES) entries.old }
    requires total { total_of entries.old < 2 ^ 64 }
    ensures bound { result ≤ length entries.new }
    ensures cells { take result entries.new ≡ cells_of entries.old }
{
    let mut kept = 0;
    for i in 0..entries.len() {
        let entry = entries[i];
        if kept > 0 && has_pair(&entries[kept - 1], entry.lo, entry.hi) {
            entries[kept - 1].n += entry.n;
        } else {
            entries[kept] = entry;
            kept += 1;
        }
    }
    kept
}

/// Makes entries the ascending list of cells that they come to. Takes no memory.
#[cold]
#[inline(never)]
pub fn gather(entries: &mut Vec<Cell>)
    requires each { All (IsCell MAX_CLASSES) entries.old.items }
    requires total { total_of entries.old.items < 2 ^ 64 }
    ensures cells { entries.new.items ≡ cells_of entries.old.items }
    ensures capacity { vec_capacity entries.new ≡ vec_capacity entries.old }
{
    entries.sort_unstable_by_key(|c| c.lo as u32 * 65536 + c.hi as u32);
    let kept = put_together(entries);
    entries.truncate(kept);
}

/// Copies cells to the front of a buffer.
pub fn put_first(out: &mut [Cell], cells: &[Cell])
    requires { length cells.now ≤ length out.old }
    ensures { take (length cells.now) out.new ≡ cells.now }
{
    out[..cells.len()].copy_from_slice(cells);
}
