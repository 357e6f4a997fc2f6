ghost use Rattle.std.specs.Prelude.{◌≡◌, ◌<◌, ◌≤◌, ◌^◌, ◌+◌, ◌*◌, ◌++◌, true, false, length, map, take, drop, [], ◌∷◌};
ghost use Rattle.std.specs.Int.{w16, w32, w64, to_be_bytes};
ghost use Rattle.std.specs.List.{flat_map};
ghost use Rattle.store_bytes.specs.segment_bytes.Fields.{list_bytes};
ghost use Rattle.store_bytes.specs.segment_bytes.Grammar.{bin, cell, row};
ghost use Rattle.store_bytes.specs.segment_bytes.Rows.{cell_in};
ghost use Rattle.store_bytes.specs.segment_bytes.Writing.{Puts, bins_of, row_of};

use tally::{Bin, Cell};

pub(crate) fn put_u16(buf: &mut [u8], at: usize, n: u16) -> usize
    requires { at + 2 ≤ length buf.old }
    ensures { Puts at (to_be_bytes w16 n) buf.old buf.new result }
{
    buf[at..at + 2].copy_from_slice(&n.to_be_bytes());
    at + 2
}

pub(crate) fn put_u64(buf: &mut [u8], at: usize, n: u64) -> usize
    requires { at + 8 ≤ length buf.old }
    ensures { Puts at (to_be_bytes w64 n) buf.old buf.new result }
{
    buf[at..at + 8].copy_from_slice(&n.to_be_bytes());
    at + 8
}

fn put_cell(buf: &mut [u8], at: usize, c: &Cell) -> usize
    requires { at + 12 ≤ length buf.old }
    ensures { Puts at (cell c.now) buf.old buf.new result }
{
    let at = put_u16(buf, at, c.lo);
    let at = put_u16(buf, at, c.hi);
    put_u64(buf, at, c.n)
}

fn put_bin(buf: &mut [u8], at: usize, b: &Bin) -> usize
    requires { at + 10 ≤ length buf.old }
    ensures { Puts at (bin b.now) buf.old buf.new result }
{
    let at = put_u16(buf, at, b.key);
    put_u64(buf, at, b.n)
}

pub(crate) fn put_levels(buf: &mut [u8], at: usize, levels: &[u16]) -> usize
    requires few { length levels.now < 2 ^ 16 }
    requires room { at + 2 + 2 * length levels.now ≤ length buf.old }
    ensures puts { Puts at (list_bytes w16 (to_be_bytes w16) levels.now) buf.old buf.new result }
    ensures next { result ≡ at + 2 + 2 * length levels.now }
{
    let mut at = put_u16(buf, at, levels.len() as u16);
    for level in levels {
        at = put_u16(buf, at, *level);
    }
    at
}

// A key's bin, if it counts something.
fn put_entry(buf: &mut [u8], at: usize, key: u16, n: u64) -> usize
    requires { at + 10 * length (bins_of key (n ∷ [])) ≤ length buf.old }
    ensures { Puts at (flat_map bin (bins_of key (n ∷ []))) buf.old buf.new result }
{
    if n == 0 {
        return at;
    }
    put_bin(buf, at, &Bin { key, n })
}

// A pair's cell, if it counts something.
fn put_pair(buf: &mut [u8], at: usize, lo: u16, hi: u16, n: u64) -> usize
    requires { at + 12 * length (bins_of hi (n ∷ [])) ≤ length buf.old }
    ensures { Puts at (flat_map cell (map (cell_in lo) (bins_of hi (n ∷ [])))) buf.old buf.new
        result }
{
    if n == 0 {
        return at;
    }
    put_cell(buf, at, &Cell { lo, hi, n })
}

// Whether a count is not 0. Most lists begin with one.
fn has_entry(key: u16, counts: &[u64]) -> bool
    ensures some { result ≡ true → 0 < length (bins_of key counts.now) }
    ensures none { result ≡ false → bins_of key counts.now ≡ [] }
{
    for n in counts {
        if *n != 0 {
            return true;
        }
    }
    false
}

fn put_bins(buf: &mut [u8], at: usize, key: u16, counts: &[u64]) -> usize
    requires few { key + length counts.now < 2 ^ 16 }
    requires room { at + 10 * length (bins_of key counts.now) ≤ length buf.old }
    ensures { Puts at (flat_map bin (bins_of key counts.now)) buf.old buf.new result }
{
    let mut at = at;
    let mut next = key;
    for n in counts {
        at = put_entry(buf, at, next, *n);
        next += 1;
    }
    at
}

/// The counts of keys from one on that are not 0, as a list. Their number is known when they are
/// written.
pub(crate) fn put_list(buf: &mut [u8], at: usize, key: u16, counts: &[u64]) -> usize
    requires few { key + length counts.now < 2 ^ 16 }
    requires room { at + 2 + 10 * length (bins_of key counts.now) ≤ length buf.old }
    ensures puts { Puts at (list_bytes w16 bin (bins_of key counts.now)) buf.old buf.new result }
    ensures next { result ≡ at + 2 + 10 * length (bins_of key counts.now) }
{
    let end = put_bins(buf, at + 2, key, counts);
    set_u16(buf, at, ((end - at - 2) / 10) as u16);
    end
}

/// The cells of a lower level, one after the other.
pub(crate) fn put_cells_of_row(buf: &mut [u8], at: usize, lo: u16, counts: &[u64]) -> usize
    requires few { lo + 1 + length counts.now < 2 ^ 16 }
    requires room { at + 12 * length (bins_of (lo + 1) counts.now) ≤ length buf.old }
    ensures { Puts at (flat_map cell (map (cell_in lo) (bins_of (lo + 1) counts.now))) buf.old
        buf.new result }
{
    let mut at = at;
    let mut hi = lo + 1;
    for n in counts {
        at = put_pair(buf, at, lo, hi, *n);
        hi += 1;
    }
    at
}

/// The row of a lower level, if it has a cell, and how many rows that is.
pub(crate) fn put_row(buf: &mut [u8], at: usize, lo: u16, counts: &[u64]) -> (usize, u16)
    requires few { lo + 1 + length counts.now < 2 ^ 16 }
    requires room { at + length (flat_map row (row_of lo (bins_of (lo + 1) counts.now)))
        ≤ length buf.old }
    ensures puts { Puts at (flat_map row (row_of lo (bins_of (lo + 1) counts.now))) buf.old buf.new
        result.0 }
    ensures rows { result.1 ≡ length (row_of lo (bins_of (lo + 1) counts.now)) }
{
    if !has_entry(lo + 1, counts) {
        return (at, 0);
    }
    let at = put_u16(buf, at, lo);
    (put_list(buf, at, lo + 1, counts), 1)
}

/// Writes a number at a place before what was written.
pub(crate) fn set_u32(buf: &mut [u8], at: usize, n: u32)
    requires { at + 4 ≤ length buf.old }
    ensures { buf.new ≡ take at buf.old ++ to_be_bytes w32 n ++ drop (at + 4) buf.old }
{
    buf[at..at + 4].copy_from_slice(&n.to_be_bytes());
}

/// Writes a number at a place before what was written.
pub(crate) fn set_u16(buf: &mut [u8], at: usize, n: u16)
    requires { at + 2 ≤ length buf.old }
    ensures { buf.new ≡ take at buf.old ++ to_be_bytes w16 n ++ drop (at + 2) buf.old }
{
    buf[at..at + 2].copy_from_slice(&n.to_be_bytes());
}
