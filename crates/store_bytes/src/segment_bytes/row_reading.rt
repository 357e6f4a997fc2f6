ghost use Rattle.std.specs.Prelude.{◌≡◌, ◌≤◌, ◌<◌, ◌+◌, ◌++◌, ◌^◌, IfOk, length, map};
ghost use Rattle.segment.specs.segment_rules.Tests.{wrong_bin};
ghost use Rattle.store_bytes.specs.segment_bytes.Fields.{Gives, seen_as, entry_list};
ghost use Rattle.store_bytes.specs.segment_bytes.Grammar.{bin_at, row_at};
ghost use Rattle.store_bytes.specs.segment_bytes.Rows.{bin_of, cell_in};
ghost use Rattle.store_bytes.specs.segment_bytes.RowReading.{with_row, with_rows, no_rows, wrong_in};
ghost use Rattle.store_bytes.specs.segment_bytes.Views.{see_rows};

use crate::segment_bytes::fault::BytesFault;
use crate::segment_bytes::numbers::{Entry, u16_at};
use std::alloc::Global;
use tally::{Bin, Cell};

/// What the rows that were read have come to: their cells, the least lower level of the next row,
/// and the place of the first row, or cell in a row, that breaks the order.
#[derive(Drop)]
pub(crate) struct Rows {
    pub(crate) cells: Vec<Cell>,
    pub(crate) from: u32,
    pub(crate) wrong: Option<u32>,
}

// Reads the cells of a row behind those of the rows before it.
fn push_cells<'a>(
    cells: &mut Vec<Cell>,
    have: usize,
    lo: u16,
    count: u16,
    bytes: &'a [u8],
) -> Result<&'a [u8], BytesFault>
    requires within { length bytes.now ≤ have }
    requires small { have < 2 ^ 63 }
    ensures reads { Gives (λ x. (cells.new.items, x.now)) result
        (seen_as (λ bins. cells.old.items ++ map (cell_in lo) bins)
        (entry_list bin_at count) have bytes.now) }
    ensures rest { IfOk result (λ x. length x.now ≤ length bytes.now) }
    ensures few { IfOk result (λ _.
        length cells.new.items ≤ length cells.old.items + count) }
{
    let mut rest = bytes;
    for _ in 0..count {
        let (bin, after) = Bin::entry_of(have, rest)?;
        cells.push(Cell {
            lo,
            hi: bin.key,
            n: bin.n,
        })?;
        rest = after;
    }
    Ok(rest)
}

// The place of the first of a row's cells that breaks the order of the upper levels from one on,
// counted from `index` on.
fn first_wrong_cell(from: u32, classes: u16, index: u32, cells: &[Cell]) -> Option<u32>
    requires small { from ≤ 2 ^ 16 }
    requires room { index + length cells.now < 2 ^ 32 }
    ensures { result ≡ wrong_bin from classes index (map bin_of cells.now) }
{
    let mut least = from;
    let mut place = index;
    for cell in cells {
        if u32::from(cell.hi) < least || cell.hi >= classes || cell.n == 0 {
            return Some(place);
        }
        least = u32::from(cell.hi) + 1;
        place += 1;
    }
    None
}

// The place of a row, or of the first of its cells, that breaks the order.
fn first_wrong_in(from: u32, classes: u16, index: u32, lo: u16, cells: &[Cell]) -> Option<u32>
    requires room { index + length cells.now < 2 ^ 32 }
    ensures { result ≡ wrong_in from classes index
        (record { lo = lo; bins = map bin_of cells.now }) }
{
    if u32::from(lo) < from || cells.is_empty() {
        return Some(index);
    }
    first_wrong_cell(u32::from(lo) + 1, classes, index, cells)
}

// Reads one row more.
fn push_row<'a>(
    rows: &mut Rows,
    have: usize,
    classes: u16,
    bytes: &'a [u8],
) -> Result<&'a [u8], BytesFault>
    requires within { length bytes.now ≤ have }
    requires small { have < 2 ^ 63 }
    requires room { length rows.old.cells.items + 2 ^ 16 < 2 ^ 32 }
    ensures reads { Gives (λ x. (see_rows rows.new, x.now)) result
        (seen_as (with_row classes (see_rows rows.old)) row_at have bytes.now) }
    ensures rest { IfOk result (λ x. length x.now ≤ length bytes.now) }
    ensures few { IfOk result (λ _.
        length rows.new.cells.items < length rows.old.cells.items + 2 ^ 16) }
{
    let (lo, rest) = u16_at(have, bytes)?;
    let (count, rest) = u16_at(have, rest)?;
    let start = rows.cells.len();
    let rest = push_cells(&mut rows.cells, have, lo, count, rest)?;
    let wrong = first_wrong_in(rows.from, classes, start as u32, lo, &rows.cells[start..]);
    rows.from = u32::from(lo) + 1;
    rows.wrong = rows.wrong.or(wrong);
    Ok(rest)
}

/// So many rows over so many classes, as their cells and the first wrong place.
pub(crate) fn rows_of(
    alloc: Global,
    have: usize,
    classes: u16,
    count: u16,
    bytes: &[u8],
) -> Result<(Rows, &[u8]), BytesFault>
    requires within { length bytes.now ≤ have }
    requires small { have < 2 ^ 63 }
    ensures reads { Gives (λ x. ((x.0.cells.items, x.0.wrong), x.1.now)) result
        (seen_as (with_rows classes no_rows) (entry_list row_at count) have bytes.now) }
    ensures rest { IfOk result (λ x. length x.1.now ≤ length bytes.now) }
{
    // A cell takes ten bytes, so that there is a place for each.
    let mut rows = Rows {
        cells: Vec::with_capacity(alloc, bytes.len() / 10)?,
        from: 0,
        wrong: None,
    };
    let mut rest = bytes;
    for _ in 0..count {
        let after = push_row(&mut rows, have, classes, rest)?;
        rest = after;
    }
    Ok((rows, rest))
}
