ghost use Rattle.std.specs.Prelude.{◌≡◌, ◌<◌, ◌∷◌, [], length, if◌then◌else◌, IfOk, IfErr};
ghost use Rattle.std.specs.Bool.{OnTrue};
ghost use Rattle.csv.specs.Records.{fields_of};
ghost use Rattle.csv_recording.specs.Column.{records_of};
ghost use Rattle.csv_recording.specs.Rows.{IsPlain, rows_left, text_left};
ghost use Rattle.csv_recording.specs.declared.columns.ColumnFault.TheVariants.{OutOfMemory};

use crate::ColumnFault;
use csv::{ByteRecord, Reader, ReaderBuilder};
use std::alloc::Global;

// The first record is none of the reader's own, and records may have any number of fields.
pub(crate) fn reader_over<'a>(alloc: Global, text: &'a [u8]) -> Reader<&'a [u8]>
    ensures plain { IsPlain result }
    ensures rows { rows_left result ≡ records_of text.now }
{
    ReaderBuilder::new()
        .has_headers(false)
        .flexible(true)
        .from_reader(alloc, text)
}

// The next record into `row`, and whether there was one. A slice is always read, so that all that
// can fail is memory.
pub(crate) fn next_row(
    reader: &mut Reader<&[u8]>,
    row: &mut ByteRecord,
) -> Result<bool, ColumnFault>
    requires plain { IsPlain reader.old }
    ensures rows { IfOk result (λ found. rows_left reader.old ≡
        (if found then fields_of row.new ∷ rows_left reader.new else [])) }
    ensures plain { IfOk result (λ found. OnTrue found (IsPlain reader.new)) }
    ensures shorter { IfOk result (λ found.
        OnTrue found (length (text_left reader.new) < length (text_left reader.old))) }
    ensures failed { IfErr result (λ fault. fault ≡ OutOfMemory) }
{
    let Ok(found) = reader.read_byte_record(row) else {
        return Err(ColumnFault::OutOfMemory);
    };
    Ok(found)
}
