ghost use Rattle.std.specs.Prelude.{◌≡◌, ◌+◌, ◌<◌, ◌≤◌, ℕ, length, slice_index};
ghost use Rattle.store_bytes.specs.segment_bytes.Writing.{table_count, first_key, keys};

use segment::Segment;

/// A table of a segment, which a body has as bins.
#[derive(Clone, Copy)]
pub(crate) enum Table {
    Crossings,
    Peaks,
    Valleys,
    Ranges,
}

fn table_count(segment: &Segment, table: Table, key: u16) -> u64
    requires from { first_key segment.now.grid table ≤ key }
    requires to { key < segment.now.grid.classes }
    ensures { result ≡ table_count segment.now table key }
{
    match table {
        Table::Crossings => segment.crossings(key),
        Table::Peaks => segment.peaks(key),
        Table::Valleys => segment.valleys(key),
        Table::Ranges => segment.ranges(key),
    }
}

/// The least key of a table, and how many it has.
pub(crate) fn keys_of(segment: &Segment, table: Table) -> (u16, u16)
    ensures first { result.0 ≡ first_key segment.now.grid table }
    ensures keys { result.1 ≡ keys segment.now.grid table }
    ensures within { result.0 + result.1 ≤ segment.now.grid.classes }
{
    let grid = segment.grid();
    let (classes, reference) = (grid.classes(), grid.reference());
    match table {
        Table::Crossings | Table::Ranges => (1, classes - 1),
        Table::Peaks => (reference, classes - reference),
        Table::Valleys => (0, reference),
    }
}

/// The counts of a table, from its least key on.
pub(crate) fn fill(segment: &Segment, table: Table, first: u16, out: &mut [u64])
    requires first { first ≡ first_key segment.now.grid table }
    requires within { first + length out.old ≤ segment.now.grid.classes }
    ensures { (k : ℕ) → k < length out.new →
        slice_index out.new k ≡ table_count segment.now table (first + k) }
{
    let _grid = segment.grid();
    let mut key = first;
    for i in 0..out.len() {
        out[i] = table_count(segment, table, key);
        key += 1;
    }
}
