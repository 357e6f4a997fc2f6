ghost use Rattle.std.specs.Prelude.{◌≡◌, ◌≤◌, ◌<◌, ◌^◌, length};
ghost use Rattle.std.specs.Int.{w32};
ghost use Rattle.turning_points.specs.Ends.{end_points};
ghost use Rattle.segment.specs.segment_rules.Parts.{parts_value};
ghost use Rattle.store_bytes.specs.segment_bytes.Fields.{Gives, list_at};
ghost use Rattle.store_bytes.specs.segment_bytes.Grammar.{body_at, cell_at, parts_of_body};
ghost use Rattle.store_bytes.specs.segment_bytes.RowReading.{rows_at};
ghost use Rattle.store_bytes.specs.segment_bytes.Views.{cells_body, four, rows_body, name_and_counts};

use crate::segment_bytes::entries::{Four, RowLists, lists_of, row_lists_of};
use crate::segment_bytes::fault::BytesFault;
use crate::segment_bytes::numbers::{NameAndCounts, ends_of, name_and_counts_of};
use calibration::Items;
use segment::segment_rules::{Name, Parts};
use std::alloc::Global;
use tally::Cell;
use turning_points::Ends;

fn parts_of_body(
    front: &NameAndCounts,
    ends: &Ends,
    residue: Vec<u16>,
    cells: Vec<Cell>,
    back: Four,
) -> Parts
    ensures { parts_value result ≡ parts_of_body ((
      (name_and_counts front.now, end_points ends.now),
      (residue.items, (cells.items, four back)),
    )) }
{
    let name = Name {
        gauge: front.gauge,
        from: front.from,
        to: front.to,
    };
    Parts {
        name,
        used: front.used,
        missing: front.missing,
        refused: front.refused,
        ends: *ends,
        residue: Items::from_vec(residue),
        cells: Items::from_vec(cells),
        crossings: Items::from_vec(back.crossings),
        peaks: Items::from_vec(back.peaks),
        valleys: Items::from_vec(back.valleys),
        ranges: Items::from_vec(back.ranges),
    }
}

/// Parts from the front of the bytes, and what is behind them.
#[tactic(auto, unfolding(crate::specs::segment_bytes::Grammar::body_at))]
pub(crate) fn parts_of(
    alloc: Global,
    have: usize,
    bytes: &[u8],
) -> Result<(Parts, &[u8]), BytesFault>
    requires within { length bytes.now ≤ have }
    requires small { have < 2 ^ 63 }
    ensures { Gives (λ x. (cells_body x.0, x.1.now)) result
        (body_at (list_at w32 cell_at) have bytes.now) }
{
    let (front, rest) = name_and_counts_of(have, bytes)?;
    let (ends, rest) = ends_of(have, rest)?;
    let (lists, rest) = lists_of(alloc, have, rest)?;
    let parts = parts_of_body(&front, &ends, lists.residue, lists.cells, lists.four);
    Ok((parts, rest))
}

// Parts whose cells were read in rows, and the place of the first row, or cell in a row, that
// breaks the order.
#[derive(Drop)]
pub(crate) struct RowParts {
    pub(crate) parts: Parts,
    pub(crate) wrong: Option<u32>,
}

/// The same, with the cells in rows over so many classes.
#[tactic(auto, unfolding(crate::specs::segment_bytes::Grammar::body_at))]
pub(crate) fn row_parts_of(
    alloc: Global,
    have: usize,
    classes: u16,
    bytes: &[u8],
) -> Result<(RowParts, &[u8]), BytesFault>
    requires within { length bytes.now ≤ have }
    requires small { have < 2 ^ 63 }
    ensures { Gives (λ x. (rows_body x.0, x.1.now)) result
        (body_at (rows_at classes) have bytes.now) }
{
    let (front, rest) = name_and_counts_of(have, bytes)?;
    let (ends, rest) = ends_of(have, rest)?;
    let (lists, rest) = row_lists_of(alloc, have, classes, rest)?;
    let RowLists {
        residue,
        rows,
        four,
    } = lists;
    let parts = parts_of_body(&front, &ends, residue, rows.cells, four);
    Ok((
        RowParts {
            parts,
            wrong: rows.wrong,
        },
        rest,
    ))
}
