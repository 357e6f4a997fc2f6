ghost use Rattle.std.specs.Prelude.{◌≡◌, ◌≢◌, ◌++◌, ℤ, List, Ok, OnOk, OnErr};
ghost use Rattle.outside.specs.Fault.{HasCause, CountRose};
ghost use Rattle.outside.specs.Sink.{AppendsPrefix};
ghost use Rattle.csv_recording.specs.Column.{column_of};
ghost use Rattle.csv_recording.specs.Recording.{recording_bytes};
ghost use Rattle.file_commands.specs.column_command.Task.{IsColumnEnd, fault_status as fault_status_of};
ghost use Rattle.status.specs.declared.status.Status.TheVariants.{Done, WriteFault};

use csv_recording::{ColumnFault, column};
use outside::{Failed, Sink};
use recording::{Head, write_head, write_samples};
use status::{RecordingFault, Status};
use std::alloc::Global;

/// Writes the column of a name as a recording with this head.
pub(crate) fn write_column<O: Sink>(
    alloc: Global,
    text: &[u8],
    name: &[u8],
    head: &Head,
    out: &mut O,
) -> Status
    ensures done { O.tells → result ≡ Done → (w : List ℤ) → column_of name.now text.now ≡ Ok w →
        O.written out.new ≡ O.written out.old ++ recording_bytes head.now w }
    ensures front { O.tells → result ≡ WriteFault → (w : List ℤ) →
        column_of name.now text.now ≡ Ok w →
        AppendsPrefix (O.written out.old) (O.written out.new) (recording_bytes head.now w) }
    ensures nothing { O.tells → result ≢ Done → result ≢ WriteFault →
        O.written out.new ≡ O.written out.old }
    ensures answer { IsColumnEnd (column_of name.now text.now) result }
    ensures write { result ≡ WriteFault → CountRose (O.faults out.old) (O.faults out.new) }
{
    match column(alloc, text, name) {
        Ok(samples) => match write_recording(head, samples.as_slice(), out) {
            Ok(()) => Status::Done,
            Err(_) => Status::WriteFault,
        },
        Err(fault) => fault_status(fault),
    }
}

fn write_recording<O: Sink>(head: &Head, samples: &[i32], out: &mut O) -> Result<(), Failed>
    ensures ok { O.tells → OnOk result (O.written out.new ≡
        O.written out.old ++ recording_bytes head.now samples.now) }
    ensures failed { O.tells → OnErr result (AppendsPrefix (O.written out.old) (O.written out.new)
        (recording_bytes head.now samples.now)) }
    ensures cause { HasCause (O.faults out.old) (O.faults out.new) result }
{
    write_head(out, head)?;
    write_samples(out, samples)
}

// The gauge of a single file is 0.
fn fault_status(fault: ColumnFault) -> Status
    ensures { result ≡ fault_status_of fault }
{
    let fault = match fault {
        ColumnFault::NoColumn => RecordingFault::NoColumn,
        ColumnFault::ShortRow { row, fields } => RecordingFault::ShortRow { row, fields },
        ColumnFault::Cell { row } => RecordingFault::Cell { row },
        ColumnFault::OutOfMemory => return Status::OutOfMemory,
    };
    Status::Recording { gauge: 0, fault }
}
