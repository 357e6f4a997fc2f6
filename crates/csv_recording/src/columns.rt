ghost use Rattle.std.specs.Prelude.{◌≡◌, Some};
ghost use Rattle.csv.specs.Records.{fields_of};
ghost use Rattle.csv_recording.specs.Column as spec;
ghost use Rattle.csv_recording.specs.Column.{GivesColumn, column_of};
ghost use Rattle.csv_recording.specs.declared.columns.ColumnFault.TheVariants.{OutOfMemory};

use crate::Samples;
use crate::cells::cell_sample;
use crate::rows::{next_row, reader_over};
use csv::ByteRecord;
use std::alloc::{AllocError, AllocFailed, Global};
use std::error::Error;
use std::fmt;

/// Why a column has no samples. Rows are numbered from 0, behind the record of the names.
#[derive(Clone, Copy, Debug, PartialEq, Eq)]
pub enum ColumnFault {
    /// The first record has no field with the column's name, or there is no record.
    NoColumn,
    /// The row has so many fields, and none in the column.
    ShortRow { row: u64, fields: u64 },
    /// What the row has in the column is no sample.
    Cell { row: u64 },
    /// Memory ran out.
    OutOfMemory,
}

impl From<AllocError> for ColumnFault {
    ghost from_gives = { λ _ fault. fault ≡ OutOfMemory };

    fn from(_: AllocError) -> ColumnFault {
        ColumnFault::OutOfMemory
    }
}

impl<T: Drop> From<AllocFailed<T>> for ColumnFault {
    ghost from_gives = { λ _ fault. fault ≡ OutOfMemory };

    fn from(_: AllocFailed<T>) -> ColumnFault {
        ColumnFault::OutOfMemory
    }
}

impl fmt::Display for ColumnFault {
    ghost use Rattle.csv_recording.specs.FaultText.{column_fault_text};

    ghost output = { λ fault. Some (column_fault_text fault) };

    fn fmt<W: fmt::Write>(&self, f: &mut fmt::Formatter<W>) -> fmt::Result {
        match self {
            ColumnFault::NoColumn => f.write_str("no column"),
            ColumnFault::ShortRow { row, fields } => write!(f, "row {row} has {fields} fields"),
            ColumnFault::Cell { row } => write!(f, "row {row} is no number"),
            ColumnFault::OutOfMemory => f.write_str("out of memory"),
        }
    }
}

impl Error for ColumnFault {}

/// The samples in the column of a name.
///
/// The first record of the text has the names; the first field that is `name` is the column's. Each
/// further record is a row. Records are those of `csv`: fields are parted by commas and may stand
/// in double quotes, blank lines are no records. A cell is a whole number from -2147483647 to
/// 2147483647 of at most 10 digits, with a sign or without one; an empty cell and `NaN` are a
/// reading that is missing. Blanks and tabs around it count for nothing.
///
/// The first row that is faulty decides.
pub fn column(alloc: Global, bytes: &[u8], name: &[u8]) -> Result<Samples, ColumnFault>
    ensures { GivesColumn (λ samples. samples.items) result (column_of name.now bytes.now) }
{
    let mut reader = reader_over(alloc, bytes);
    let mut row = ByteRecord::new(alloc);
    if !next_row(&mut reader, &mut row)? {
        return Err(ColumnFault::NoColumn);
    }
    let Some(place) = place_of(name, &row) else {
        return Err(ColumnFault::NoColumn);
    };
    // A row has a line feed mostly, so that the samples do not grow in steps.
    let mut samples = Vec::with_capacity(alloc, line_feeds(bytes))?;
    'rows: while next_row(&mut reader, &mut row)? {
        let sample = sample_of_row(place, samples.len() as u64, &row)?;
        samples.push(sample)?;
    }
    Ok(samples)
}

// Where the record of the names has the field first.
fn place_of(name: &[u8], header: &ByteRecord) -> Option<usize>
    ensures { result ≡ spec.place_of name.now (fields_of header.now) }
{
    for (place, field) in header.iter().enumerate() {
        if field == name {
            return Some(place);
        }
    }
    None
}

fn line_feeds(bytes: &[u8]) -> usize {
    bytes.iter().filter(|byte| **byte == b'\n').count()
}

fn sample_of_row(place: usize, number: u64, row: &ByteRecord) -> Result<i32, ColumnFault>
    ensures { result ≡ spec.sample_of_row place number (fields_of row.now) }
{
    let Some(cell) = row.get(place) else {
        let fields = row.len() as u64;
        return Err(ColumnFault::ShortRow {
            row: number,
            fields,
        });
    };
    cell_sample(cell).ok_or(ColumnFault::Cell { row: number })
}
