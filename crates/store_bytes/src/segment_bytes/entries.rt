ghost use Rattle.std.specs.Prelude.{◌-◌, ◌≤◌, ◌<◌, ◌^◌, length, IfOk};
ghost use Rattle.std.specs.Int.{w16, w32};
ghost use Rattle.store_bytes.specs.segment_bytes.Fields.{Gives, number_at, entry_list, list_at, both};
ghost use Rattle.store_bytes.specs.segment_bytes.Grammar.{cell_at, bin_at, back_at};
ghost use Rattle.store_bytes.specs.segment_bytes.RowReading.{rows_at};
ghost use Rattle.store_bytes.specs.segment_bytes.Views.{lists, row_lists, four};

use crate::segment_bytes::fault::BytesFault;
use crate::segment_bytes::numbers::{Entry, u16_at, u32_at};
use crate::segment_bytes::row_reading::{Rows, rows_of};
use std::alloc::Global;
use tally::{Bin, Cell};

// So many of one kind.
fn entries_of<T: Entry + Drop>(
    alloc: Global,
    have: usize,
    count: u32,
    bytes: &[u8],
) -> Result<(Vec<T>, &[u8]), BytesFault>
    requires within { length bytes.now ≤ have }
    requires small { have < 2 ^ 63 }
    ensures reads { Gives (λ x. (x.0.items, x.1.now)) result
        (entry_list T.at count have bytes.now) }
    ensures rest { IfOk result (λ x. length x.1.now ≤ length bytes.now) }
{
    let mut entries = Vec::with_capacity(alloc, (count as usize).min(bytes.len() / T::WIDTH))?;
    let mut rest = bytes;
    for _ in 0..count {
        let (entry, after) = T::entry_of(have, rest)?;
        entries.push(entry)?;
        rest = after;
    }
    Ok((entries, rest))
}

fn levels_in(alloc: Global, have: usize, bytes: &[u8]) -> Result<(Vec<u16>, &[u8]), BytesFault>
    requires within { length bytes.now ≤ have }
    requires small { have < 2 ^ 63 }
    ensures reads { Gives (λ x. (x.0.items, x.1.now)) result
        (list_at w16 (number_at w16) have bytes.now) }
    ensures rest { IfOk result (λ x. length x.1.now ≤ length bytes.now) }
{
    let (count, rest) = u16_at(have, bytes)?;
    entries_of(alloc, have, u32::from(count), rest)
}

fn cells_in(alloc: Global, have: usize, bytes: &[u8]) -> Result<(Vec<Cell>, &[u8]), BytesFault>
    requires within { length bytes.now ≤ have }
    requires small { have < 2 ^ 63 }
    ensures reads { Gives (λ x. (x.0.items, x.1.now)) result
        (list_at w32 cell_at have bytes.now) }
    ensures rest { IfOk result (λ x. length x.1.now ≤ length bytes.now) }
{
    let (count, rest) = u32_at(have, bytes)?;
    entries_of(alloc, have, count, rest)
}

fn bins_in(alloc: Global, have: usize, bytes: &[u8]) -> Result<(Vec<Bin>, &[u8]), BytesFault>
    requires within { length bytes.now ≤ have }
    requires small { have < 2 ^ 63 }
    ensures reads { Gives (λ x. (x.0.items, x.1.now)) result
        (list_at w16 bin_at have bytes.now) }
    ensures rest { IfOk result (λ x. length x.1.now ≤ length bytes.now) }
{
    let (count, rest) = u16_at(have, bytes)?;
    entries_of(alloc, have, u32::from(count), rest)
}

fn rows_in(
    alloc: Global,
    have: usize,
    classes: u16,
    bytes: &[u8],
) -> Result<(Rows, &[u8]), BytesFault>
    requires within { length bytes.now ≤ have }
    requires small { have < 2 ^ 63 }
    ensures reads { Gives (λ x. ((x.0.cells.items, x.0.wrong), x.1.now)) result
        (rows_at classes have bytes.now) }
    ensures rest { IfOk result (λ x. length x.1.now ≤ length bytes.now) }
{
    let (count, rest) = u16_at(have, bytes)?;
    rows_of(alloc, have, classes, count, rest)
}

// The four lists at the end.
#[derive(Drop)]
pub(crate) struct Four {
    pub(crate) crossings: Vec<Bin>,
    pub(crate) peaks: Vec<Bin>,
    pub(crate) valleys: Vec<Bin>,
    pub(crate) ranges: Vec<Bin>,
}

fn four_of(alloc: Global, have: usize, bytes: &[u8]) -> Result<(Four, &[u8]), BytesFault>
    requires within { length bytes.now ≤ have }
    requires small { have < 2 ^ 63 }
    ensures reads { Gives (λ x. (four x.0, x.1.now)) result
        (both (list_at w16 bin_at) (both (list_at w16 bin_at)
        (both (list_at w16 bin_at) (list_at w16 bin_at))) have bytes.now) }
{
    let (crossings, rest) = bins_in(alloc, have, bytes)?;
    let (peaks, rest) = bins_in(alloc, have, rest)?;
    let (valleys, rest) = bins_in(alloc, have, rest)?;
    let (ranges, rest) = bins_in(alloc, have, rest)?;
    let four = Four {
        crossings,
        peaks,
        valleys,
        ranges,
    };
    Ok((four, rest))
}

// The lists behind the ends.
#[derive(Drop)]
pub(crate) struct Lists {
    pub(crate) residue: Vec<u16>,
    pub(crate) cells: Vec<Cell>,
    pub(crate) four: Four,
}

// The same with the cells of rows, and what they have come to.
#[derive(Drop)]
pub(crate) struct RowLists {
    pub(crate) residue: Vec<u16>,
    pub(crate) rows: Rows,
    pub(crate) four: Four,
}

#[tactic(auto, unfolding(crate::specs::segment_bytes::Grammar::back_at))]
pub(crate) fn lists_of(
    alloc: Global,
    have: usize,
    bytes: &[u8],
) -> Result<(Lists, &[u8]), BytesFault>
    requires within { length bytes.now ≤ have }
    requires small { have < 2 ^ 63 }
    ensures reads { Gives (λ x. (lists x.0, x.1.now)) result
        (back_at (list_at w32 cell_at) have bytes.now) }
{
    let (residue, rest) = levels_in(alloc, have, bytes)?;
    let (cells, rest) = cells_in(alloc, have, rest)?;
    let (four, rest) = four_of(alloc, have, rest)?;
    let lists = Lists {
        residue,
        cells,
        four,
    };
    Ok((lists, rest))
}

#[tactic(auto, unfolding(crate::specs::segment_bytes::Grammar::back_at))]
pub(crate) fn row_lists_of(
    alloc: Global,
    have: usize,
    classes: u16,
    bytes: &[u8],
) -> Result<(RowLists, &[u8]), BytesFault>
    requires within { length bytes.now ≤ have }
    requires small { have < 2 ^ 63 }
    ensures reads { Gives (λ x. (row_lists x.0, x.1.now)) result
        (back_at (rows_at classes) have bytes.now) }
{
    let (residue, rest) = levels_in(alloc, have, bytes)?;
    let (rows, rest) = rows_in(alloc, have, classes, rest)?;
    let (four, rest) = four_of(alloc, have, rest)?;
    let lists = RowLists {
        residue,
        rows,
        four,
    };
    Ok((lists, rest))
}
