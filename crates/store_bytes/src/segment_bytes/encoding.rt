ghost use Rattle.std.specs.Prelude.{◌≡◌, ◌<◌, ◌≤◌, ◌+◌, ◌-◌, ◌*◌, length, map, take};
ghost use Rattle.std.specs.Int.{w16};
ghost use Rattle.std.specs.List.{flat_map};
ghost use Rattle.turning_points.specs.Ends.{end_points};
ghost use Rattle.segment.specs.Parts.{parts_of};
ghost use Rattle.store_bytes.specs.declared.segment_bytes.layout.Layout.TheVariants.{One, Two};
ghost use Rattle.store_bytes.specs.segment_bytes.Decoding.{IsBodyOf};
ghost use Rattle.store_bytes.specs.segment_bytes.Fields.{list_bytes};
ghost use Rattle.store_bytes.specs.segment_bytes.Grammar.{bin, body_of, cell, ends, list0, row, name_and_counts_bytes, name_and_counts_of};
ghost use Rattle.store_bytes.specs.segment_bytes.Rows.{cell_in, rows_of};
ghost use Rattle.store_bytes.specs.segment_bytes.Sizes.{body_length, list0_length, max_body, max_body_of};
ghost use Rattle.store_bytes.specs.segment_bytes.Writing.{Puts, bins_in, row_bins, row_of};
ghost use Rattle.store_bytes.specs.declared.segment_bytes.layout.TheConstants.{MAX_CLASSES_ONE};

use crate::segment_bytes::bin_lists::{Table, fill, keys_of};
use crate::segment_bytes::layout::Layout;
use crate::segment_bytes::writing::{
    put_cells_of_row, put_levels, put_list, put_row, put_u16, put_u64, set_u16, set_u32,
};
use calibration::MAX_CLASSES;
use segment::Segment;
use turning_points::Ends;

/// As many counts as a grid has classes at most.
const PLACES: usize = MAX_CLASSES as usize;

fn put_table(
    buf: &mut [u8],
    at: usize,
    segment: &Segment,
    table: Table,
    counts: &mut [u64],
) -> usize
    requires places { segment.now.grid.classes ≤ length counts.old }
    requires room { at + 2 + 10 * length (bins_in (parts_of segment.now) table) ≤ length buf.old }
    ensures puts { Puts at (list_bytes w16 bin (bins_in (parts_of segment.now) table))
        buf.old buf.new
        result }
    ensures next { result ≡ at + 2 + 10 * length (bins_in (parts_of segment.now) table) }
{
    let grid = segment.grid();
    let _classes = grid.classes();
    let (first, keys) = keys_of(segment, table);
    let part = &mut counts[..usize::from(keys)];
    fill(segment, table, first, part);
    put_list(buf, at, first, part)
}

fn put_cells_at(buf: &mut [u8], at: usize, segment: &Segment, lo: u16, counts: &mut [u64]) -> usize
    requires within { lo + 1 < segment.now.grid.classes }
    requires places { segment.now.grid.classes ≤ length counts.old }
    requires room { at + 12 * length (row_bins segment.now lo) ≤ length buf.old }
    ensures { Puts at (flat_map cell (map (cell_in lo) (row_bins segment.now lo))) buf.old buf.new
        result }
{
    let grid = segment.grid();
    let part = &mut counts[..usize::from(grid.classes() - 1 - lo)];
    segment.write_cycles(lo, part);
    put_cells_of_row(buf, at, lo, part)
}

fn put_row_at(
    buf: &mut [u8],
    at: usize,
    segment: &Segment,
    lo: u16,
    counts: &mut [u64],
) -> (usize, u16)
    requires within { lo + 1 < segment.now.grid.classes }
    requires places { segment.now.grid.classes ≤ length counts.old }
    requires room { at + length (flat_map row (row_of lo (row_bins segment.now lo)))
        ≤ length buf.old }
    ensures puts { Puts at (flat_map row (row_of lo (row_bins segment.now lo))) buf.old buf.new
        result.0 }
    ensures rows { result.1 ≡ length (row_of lo (row_bins segment.now lo)) }
{
    let grid = segment.grid();
    let part = &mut counts[..usize::from(grid.classes() - 1 - lo)];
    segment.write_cycles(lo, part);
    put_row(buf, at, lo, part)
}

fn put_all_cells(buf: &mut [u8], at: usize, segment: &Segment, counts: &mut [u64]) -> usize
    requires places { segment.now.grid.classes ≤ length counts.old }
    requires room { at + 12 * length (parts_of segment.now).cells ≤ length buf.old }
    ensures { Puts at (flat_map cell (parts_of segment.now).cells) buf.old buf.new result }
{
    let grid = segment.grid();
    let mut at = at;
    for lo in 0..grid.classes() - 1 {
        at = put_cells_at(buf, at, segment, lo, counts);
    }
    at
}

fn put_all_rows(buf: &mut [u8], at: usize, segment: &Segment, counts: &mut [u64]) -> (usize, u16)
    requires places { segment.now.grid.classes ≤ length counts.old }
    requires room { at + length (flat_map row (rows_of (parts_of segment.now).cells))
        ≤ length buf.old }
    ensures puts { Puts at (flat_map row (rows_of (parts_of segment.now).cells)) buf.old buf.new
        result.0 }
    ensures rows { result.1 ≡ length (rows_of (parts_of segment.now).cells) }
{
    let grid = segment.grid();
    let mut at = at;
    let mut rows = 0;
    for lo in 0..grid.classes() - 1 {
        let (next, more) = put_row_at(buf, at, segment, lo, counts);
        at = next;
        rows += more;
    }
    (at, rows)
}

// The number of cells is known when they are written.
fn put_cells(buf: &mut [u8], at: usize, segment: &Segment, counts: &mut [u64]) -> usize
    requires places { segment.now.grid.classes ≤ length counts.old }
    requires room { at + list0_length One (parts_of segment.now) ≤ length buf.old }
    ensures puts { Puts at (list0 One (parts_of segment.now)) buf.old buf.new result }
    ensures next { result ≡ at + list0_length One (parts_of segment.now) }
{
    let _grid = segment.grid();
    let end = put_all_cells(buf, at + 4, segment, counts);
    set_u32(buf, at, ((end - at - 4) / 12) as u32);
    end
}

// The number of rows is known when they are written.
fn put_rows(buf: &mut [u8], at: usize, segment: &Segment, counts: &mut [u64]) -> usize
    requires places { segment.now.grid.classes ≤ length counts.old }
    requires room { at + list0_length Two (parts_of segment.now) ≤ length buf.old }
    ensures puts { Puts at (list0 Two (parts_of segment.now)) buf.old buf.new result }
    ensures next { result ≡ at + list0_length Two (parts_of segment.now) }
{
    let (end, rows) = put_all_rows(buf, at + 2, segment, counts);
    set_u16(buf, at, rows);
    end
}

fn put_list0(
    buf: &mut [u8],
    at: usize,
    layout: Layout,
    segment: &Segment,
    counts: &mut [u64],
) -> usize
    requires places { segment.now.grid.classes ≤ length counts.old }
    requires room { at + list0_length layout (parts_of segment.now) ≤ length buf.old }
    ensures puts { Puts at (list0 layout (parts_of segment.now)) buf.old buf.new result }
    ensures next { result ≡ at + list0_length layout (parts_of segment.now) }
{
    match layout {
        Layout::One => put_cells(buf, at, segment, counts),
        Layout::Two => put_rows(buf, at, segment, counts),
    }
}

fn put_name_and_counts(buf: &mut [u8], segment: &Segment) -> usize
    requires { 42 ≤ length buf.old }
    ensures puts { Puts 0 (name_and_counts_bytes (name_and_counts_of (parts_of segment.now)))
        buf.old buf.new result }
    ensures next { result ≡ 42 }
{
    let name = segment.name();
    let at = put_u16(buf, 0, name.gauge);
    let at = put_u64(buf, at, name.from);
    let at = put_u64(buf, at, name.to);
    let at = put_u64(buf, at, segment.used());
    let at = put_u64(buf, at, segment.missing());
    put_u64(buf, at, segment.refused())
}

fn put_ends(buf: &mut [u8], at: usize, e: &Ends) -> usize
    requires { at + 16 ≤ length buf.old }
    ensures puts { Puts at (ends (end_points e.now)) buf.old buf.new result }
    ensures next { result ≡ at + 16 }
{
    let at = put_u64(buf, at, e.points);
    let at = put_u16(buf, at, e.first[0]);
    let at = put_u16(buf, at, e.first[1]);
    let at = put_u16(buf, at, e.last[0]);
    put_u16(buf, at, e.last[1])
}

fn put_parts(buf: &mut [u8], layout: Layout, segment: &Segment) -> usize
    requires room { body_length layout (parts_of segment.now) ≤ length buf.old }
    ensures body { take result buf.new ≡ body_of layout (parts_of segment.now) }
    ensures next { result ≡ body_length layout (parts_of segment.now) }
{
    let grid = segment.grid();
    let _classes = grid.classes();
    let mut counts = [0; PLACES];
    let at = put_name_and_counts(buf, segment);
    let ends = segment.ends();
    let at = put_ends(buf, at, &ends);
    let at = put_levels(buf, at, segment.residue());
    let at = put_list0(buf, at, layout, segment, &mut counts);
    let at = put_table(buf, at, segment, Table::Crossings, &mut counts);
    let at = put_table(buf, at, segment, Table::Peaks, &mut counts);
    let at = put_table(buf, at, segment, Table::Valleys, &mut counts);
    put_table(buf, at, segment, Table::Ranges, &mut counts)
}

/// Writes the body of a segment in the layout to the front of a buffer, and tells its length. Takes
/// no memory. The cells are walked once, row by row: a table of a tally costs its places, a log its
/// entries for each row.
pub fn encode(layout: Layout, seg: &Segment, buf: &mut [u8]) -> usize
    requires few { layout ≡ One → seg.now.grid.classes ≤ MAX_CLASSES_ONE }
    requires room { max_body layout seg.now.grid.classes ≤ length buf.old }
    ensures body { IsBodyOf layout seg.now.grid (parts_of seg.now) (take result buf.new) }
    ensures len { result ≡ length (body_of layout (parts_of seg.now)) }
    ensures bound { result ≤ max_body layout seg.now.grid.classes }
    ensures by_samples { result ≤
        max_body_of seg.now.grid.classes (seg.now.to - seg.now.from) }
{
    let grid = seg.grid();
    let _classes = grid.classes();
    let name = seg.name();
    let _gauge = name.gauge;
    put_parts(buf, layout, seg)
}
