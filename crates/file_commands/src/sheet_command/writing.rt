ghost use Rattle.std.specs.Prelude.{◌≡◌, map, string_bytes, IfOk, length};
ghost use Rattle.outside.specs.Fault.{CountRose};
ghost use Rattle.csv_recording.specs.Sheet.{sheet_text};
ghost use Rattle.site_config.specs.Configuration.{gauge_names};
ghost use Rattle.site_config.specs.Valid.{IsConfig};
ghost use Rattle.file_commands.specs.file_tasks.Answer.{IsPrintingOrNoMemory};
ghost use Rattle.status.specs.declared.status.Status.TheVariants.{WriteFault};
ghost use Rattle.file_commands.specs.sheet_command.Sheet.{Prints};

use csv_recording::{Samples, sheet};
use outside::Sink;
use site_config::Config;
use status::Status;
use std::alloc::{AllocError, Global};

/// Writes the sheet of these recordings, one for each gauge.
pub(crate) fn write_sheet<O: Sink>(
    alloc: Global,
    config: &Config,
    recordings: &[Samples],
    out: &mut O,
) -> Status
    requires config { IsConfig config.now }
    requires pairs { length recordings.now ≡ length config.now.gauges }
    ensures prints { O.tells → Prints result
        (sheet_text (gauge_names config.now.gauges)
        (map (λ s. s.items) recordings.now))
        (O.written out.old) (O.written out.new) }
    ensures kind { IsPrintingOrNoMemory result }
    ensures write { result ≡ WriteFault → CountRose (O.faults out.old) (O.faults out.new) }
{
    let Ok(names) = names_of(alloc, config) else {
        return Status::OutOfMemory;
    };
    let mut text = Vec::new(alloc);
    if sheet(alloc, names.as_slice(), recordings, &mut text).is_err() {
        return Status::OutOfMemory;
    }
    match out.put(text.as_slice()) {
        Ok(()) => Status::Done,
        Err(_) => Status::WriteFault,
    }
}

// The names of all gauges.
fn names_of(alloc: Global, config: &Config) -> Result<Vec<String>, AllocError>
    ensures { IfOk result (λ names. map string_bytes names.items ≡
        gauge_names config.now.gauges) }
{
    let gauges = config.gauges.as_slice();
    let mut names = Vec::with_capacity(alloc, gauges.len())?;
    for gauge in gauges {
        names.push_reserved(String::from_str(alloc, gauge.name.as_str())?);
    }
    Ok(names)
}
