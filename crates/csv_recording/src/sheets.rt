ghost use Rattle.std.specs.Prelude.{◌≡◌, ◌<◌, ◌-◌, ◌^◌, ℕ, List, [], ◌∷◌, ◌++◌, length, map, string_bytes, slice_index_or, IfOk, OnOk, OnErr};
ghost use Rattle.csv.specs.Writing.{default_writer, row_text};
ghost use Rattle.calibration.specs.declared.reading.TheConstants.{MISSING};
ghost use Rattle.csv_recording.specs.Cells.{cell_text};
ghost use Rattle.csv_recording.specs.Sheet.{longest as longest_of, cells_at, rows_from, sheet_text, text_of_rows};
ghost use Rattle.csv_recording.specs.Writers.{HasWrittenText};

use crate::Samples;
use calibration::MISSING;
use csv::{Writer, WriterBuilder};
use itoa::Buffer;
use std::alloc::{AllocError, Global};

/// Appends the text of a sheet: the names, and then a row for each sample of the longest
/// recording. Where memory runs out, nothing is appended.
///
/// A field is the decimal number of a sample, or `NaN` where the reading is missing or the
/// recording has ended.
pub fn sheet(
    alloc: Global,
    names: &[String],
    samples: &[Samples],
    out: &mut Vec<u8>,
) -> Result<(), AllocError>
    requires some { 0 < length names.now }
    requires pairs { length samples.now ≡ length names.now }
    ensures ok { OnOk result (out.new.items ≡ out.old.items ++
        sheet_text (map string_bytes names.now) (map (λ s. s.items) samples.now)) }
    ensures failed { OnErr result (out.new.items ≡ out.old.items) }
{
    let text = text_of(alloc, names, samples)?;
    out.extend_from_slice(&text)
}

// The text stands in memory of its own until it is whole.
fn text_of(alloc: Global, names: &[String], samples: &[Samples]) -> Result<Vec<u8>, AllocError>
    ensures { IfOk result (λ text. text.items ≡
        sheet_text (map string_bytes names.now) (map (λ s. s.items) samples.now)) }
{
    let mut writer = WriterBuilder::new().from_writer(Vec::new(alloc));
    write_names(&mut writer, names)?;
    write_rows(&mut writer, samples)?;
    match writer.into_inner() {
        Ok(text) => Ok(text),
        Err(_) => Err(AllocError),
    }
}

fn write_names(writer: &mut Writer<Vec<u8>>, names: &[String]) -> Result<(), AllocError>
    ensures { OnOk result ((text : List ℕ) → HasWrittenText text [] writer.old →
        HasWrittenText (text ++ row_text default_writer (map string_bytes names.now))
        [] writer.new) }
{
    for name in names {
        write_field(writer, name.as_bytes())?;
    }
    end_record(writer)
}

fn write_rows(writer: &mut Writer<Vec<u8>>, recordings: &[Samples]) -> Result<(), AllocError>
    ensures { OnOk result ((text : List ℕ) → HasWrittenText text [] writer.old →
        HasWrittenText (text ++ text_of_rows (rows_from (map (λ s. s.items) recordings.now) 0
        (longest_of (map (λ s. s.items) recordings.now)))) [] writer.new) }
{
    for row in 0..longest(recordings) {
        write_row(writer, recordings, row)?;
    }
    Ok(())
}

fn longest(recordings: &[Samples]) -> usize
    ensures { result ≡ longest_of (map (λ s. s.items) recordings.now) }
{
    let mut most = 0;
    for samples in recordings {
        most = most.max(samples.len());
    }
    most
}

fn write_row(
    writer: &mut Writer<Vec<u8>>,
    recordings: &[Samples],
    row: usize,
) -> Result<(), AllocError>
    ensures { OnOk result ((text : List ℕ) → HasWrittenText text [] writer.old →
        HasWrittenText (text ++ row_text default_writer
        (cells_at row (map (λ s. s.items) recordings.now)))
        [] writer.new) }
{
    for samples in recordings {
        write_cell(writer, samples, row)?;
    }
    end_record(writer)
}

// The sample of this number, or that there is none.
fn write_cell(writer: &mut Writer<Vec<u8>>, samples: &[i32], row: usize) -> Result<(), AllocError>
    ensures { OnOk result ((text : List ℕ) (fields : List (List ℕ)) → length fields < 2 ^ 64 - 1 →
        HasWrittenText text fields writer.old →
        HasWrittenText text (fields ++ cell_text (slice_index_or samples.now row MISSING) ∷
        []) writer.new) }
{
    match samples.get(row) {
        Some(&sample) if sample != MISSING => {
            write_field(writer, Buffer::new().format(sample).as_bytes())
        }
        _ => write_field(writer, b"NaN"),
    }
}

// A writer to memory fails for want of memory alone.
fn write_field(writer: &mut Writer<Vec<u8>>, field: &[u8]) -> Result<(), AllocError>
    ensures { OnOk result ((text : List ℕ) (fields : List (List ℕ)) → length fields < 2 ^ 64 - 1 →
        HasWrittenText text fields writer.old → HasWrittenText text
        (fields ++ field.now ∷ []) writer.new) }
{
    if writer.write_field(field).is_err() {
        return Err(AllocError);
    }
    Ok(())
}

// As with a field; the records are all of one length.
fn end_record(writer: &mut Writer<Vec<u8>>) -> Result<(), AllocError>
    ensures { OnOk result ((text : List ℕ) (fields : List (List ℕ)) →
        HasWrittenText text fields writer.old →
        HasWrittenText (text ++ row_text default_writer fields) [] writer.new) }
{
    if writer.end_record().is_err() {
        return Err(AllocError);
    }
    Ok(())
}
