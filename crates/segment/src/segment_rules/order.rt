ghost use Rattle.std.specs.Prelude.{◌≡◌, ◌<◌, ◌≤◌, ◌^◌, ◌+◌, IfNone, length};
ghost use Rattle.segment.specs.segment_rules.Tests.{first_wrong_entry, is_bin_from, is_cell_from, wrong_bin, wrong_cell};
ghost use Rattle.segment.specs.segment_rules.Parts.{parts_value};
ghost use Rattle.segment.specs.segment_rules.Few.{AreFew};

use crate::segment_rules::parts::Parts;
use crate::segment_rules::rule::BrokenRule;
use calibration::Grid;
use tally::{Bin, Cell};

fn is_next_cell(lo: u16, hi: u32, classes: u16, cell: &Cell) -> bool
    ensures { result ≡ is_cell_from lo hi classes cell.now }
{
    (lo < cell.lo || (lo == cell.lo && hi <= u32::from(cell.hi)))
        && (cell.lo < cell.hi && (cell.hi < classes && 0 < cell.n))
}

// Cells ascend, so there are fewer than 2^32 before the first that breaks the order.
fn first_wrong_cell(classes: u16, cells: &[Cell]) -> Option<u32>
    ensures place { result ≡ wrong_cell 0 0 classes 0 cells.now }
    ensures few { IfNone result (length cells.now < 2 ^ 32) }
{
    let mut lo = 0u16;
    let mut hi = 0u32;
    let mut index = 0u32;
    for cell in cells {
        if !is_next_cell(lo, hi, classes, cell) {
            return Some(index);
        }
        lo = cell.lo;
        hi = u32::from(cell.hi) + 1;
        index += 1;
    }
    None
}

fn is_next_bin(from: u32, to: u16, bin: &Bin) -> bool
    ensures { result ≡ is_bin_from from to bin.now }
{
    from <= u32::from(bin.key) && (bin.key < to && 0 < bin.n)
}

// The place of the first entry that breaks the order of keys from one on and below another.
fn first_wrong_bin(from: u16, to: u16, bins: &[Bin]) -> Option<u32>
    ensures place { result ≡ wrong_bin from to 0 bins.now }
    ensures few { IfNone result (length bins.now ≤ 2 ^ 16) }
{
    let mut least = u32::from(from);
    let mut place = 0;
    for bin in bins {
        if !is_next_bin(least, to, bin) {
            return Some(place);
        }
        least = u32::from(bin.key) + 1;
        place += 1;
    }
    None
}

/// The first entry that breaks the order rule.
#[tactic(auto, unfolding(crate::specs::segment_rules::Tests::first_wrong_entry))]
pub(crate) fn first_wrong_entry(grid: &Grid, parts: &Parts) -> Option<BrokenRule>
    ensures rule { result ≡ first_wrong_entry grid.now (parts_value parts.now) }
    ensures few { IfNone result (AreFew (parts_value parts.now)) }
{
    let classes = grid.classes();
    let reference = grid.reference();
    if let Some(index) = first_wrong_cell(classes, parts.cells.as_slice()) {
        return Some(BrokenRule::Order { list: 0, index });
    }
    if let Some(index) = first_wrong_bin(1, classes, parts.crossings.as_slice()) {
        return Some(BrokenRule::Order { list: 1, index });
    }
    if let Some(index) = first_wrong_bin(reference, classes, parts.peaks.as_slice()) {
        return Some(BrokenRule::Order { list: 2, index });
    }
    if let Some(index) = first_wrong_bin(0, reference, parts.valleys.as_slice()) {
        return Some(BrokenRule::Order { list: 3, index });
    }
    if let Some(index) = first_wrong_bin(1, classes, parts.ranges.as_slice()) {
        return Some(BrokenRule::Order { list: 4, index });
    }
    None
}
