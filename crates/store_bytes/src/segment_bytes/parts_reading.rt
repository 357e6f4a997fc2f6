ghost use Rattle.std.specs.Prelude.{◌≡◌, length};
ghost use Rattle.std.specs.Int.{w32};
ghost use Rattle.segment.specs.segment_rules.Parts.{parts_value};
ghost use Rattle.segment.specs.segment_rules.Tests.{order_broken};
ghost use Rattle.store_bytes.specs.segment_bytes.Fields.{Gives, list_at};
ghost use Rattle.store_bytes.specs.segment_bytes.Grammar.{cell_at};
ghost use Rattle.store_bytes.specs.segment_bytes.Decoding.{all_of, or_fault, parts_in};
ghost use Rattle.store_bytes.specs.segment_bytes.RowReading.{parts_of_rows, rows_at};
ghost use Rattle.store_bytes.specs.segment_bytes.Views.{cells_body, rows_body};
ghost use Rattle.store_bytes.specs.declared.segment_bytes.fault.BytesFault.TheVariants.{Trailing};

use crate::segment_bytes::fault::BytesFault;
use crate::segment_bytes::layout::Layout;
use crate::segment_bytes::reading::{RowParts, parts_of, row_parts_of};
use calibration::Grid;
use segment::segment_rules::Parts;
use std::alloc::Global;

// What follows a body.
fn trailing(rest: &[u8]) -> BytesFault
    ensures { result ≡ Trailing (length rest.now) }
{
    BytesFault::Trailing {
        rest: rest.len() as u64,
    }
}

#[tactic(auto, unfolding(crate::specs::segment_bytes::Decoding::all_of))]
fn all_cells(alloc: Global, bytes: &[u8]) -> Result<Parts, BytesFault>
    ensures { Gives cells_body result (all_of (list_at w32 cell_at) bytes.now) }
{
    let (parts, rest) = parts_of(alloc, bytes.len(), bytes)?;
    if !rest.is_empty() {
        return Err(trailing(rest));
    }
    Ok(parts)
}

#[tactic(auto, unfolding(crate::specs::segment_bytes::Decoding::all_of))]
fn all_rows(alloc: Global, classes: u16, bytes: &[u8]) -> Result<RowParts, BytesFault>
    ensures { Gives rows_body result (all_of (rows_at classes) bytes.now) }
{
    let (parts, rest) = row_parts_of(alloc, bytes.len(), classes, bytes)?;
    if !rest.is_empty() {
        return Err(trailing(rest));
    }
    Ok(parts)
}

// The parts of rows that are in order.
fn parts_in_order(found: RowParts) -> Result<Parts, BytesFault>
    ensures { Gives parts_value result
        (or_fault (order_broken 0 found.wrong) (parts_value found.parts)) }
{
    match found.wrong {
        Some(index) => Err(BytesFault::Order { list: 0, index }),
        None => Ok(found.parts),
    }
}

#[tactic(auto, unfolding(crate::specs::segment_bytes::RowReading::parts_of_rows))]
fn parts_of_rows(alloc: Global, grid: &Grid, bytes: &[u8]) -> Result<Parts, BytesFault>
    ensures { Gives parts_value result (parts_of_rows grid.now bytes.now) }
{
    let found = all_rows(alloc, grid.classes(), bytes)?;
    parts_in_order(found)
}

/// The parts whose body in the layout the bytes are, whatever rules they keep. Refused are, in this
/// order, a number that does not fit, bytes after the body, and rows that are not in order.
#[tactic(auto, unfolding(crate::specs::segment_bytes::Decoding::parts_in))]
pub fn parts_in(
    alloc: Global,
    layout: Layout,
    grid: &Grid,
    bytes: &[u8],
) -> Result<Parts, BytesFault>
    ensures { Gives parts_value result (parts_in layout grid.now bytes.now) }
{
    match layout {
        Layout::One => all_cells(alloc, bytes),
        Layout::Two => parts_of_rows(alloc, grid, bytes),
    }
}
