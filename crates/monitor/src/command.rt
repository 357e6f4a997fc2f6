ghost use Rattle.std.specs.Prelude.{◌≡◌, ◌≢◌, ◌≤◌, ◌++◌, ℤ, List};
ghost use Rattle.outside.specs.Fault.{CountRose};
ghost use Rattle.outside.specs.Sink.{AppendsPrefix};
ghost use Rattle.calibration.specs.declared.limits.TheConstants.{MAX_SAMPLES};
ghost use Rattle.monitor.specs.Figures.{AreFigures};
ghost use Rattle.monitor.specs.Printed.{table_grid, table_gain, text_of_samples};
ghost use Rattle.file_commands.specs.file_tasks.Run.{Runs, outside};
ghost use Rattle.monitor.specs.Task.{table_task};
ghost use Rattle.file_commands.specs.file_tasks.Answer.{IsPrintingOrNoMemory};

use crate::counting::table_page;
use crate::read::read_recording;
use outside::{Sink, Site};
use recount::RunningCount;
use status::Status;
use std::alloc::Global;
use turning_points::three_point::HalfUnits;

/// Prints the rainflow table of a recording (ASTM E1049-85, 5.4.4).
///
/// The file is read to its end, in pieces. All its sources are back at the site when the call
/// returns, and no file is changed.
pub fn table_command<T: Site, O: Sink>(
    alloc: Global,
    file: &str,
    site: &mut T,
    out: &mut O,
) -> Status
    requires home { T.out site.old ≡ 0 }
    ensures run { Runs (table_task file.now (T.files site.old))
        (outside ⟦<T as Site>⟧ ⟦<O as Sink>⟧ site.old out.old)
        (outside ⟦<T as Site>⟧ ⟦<O as Sink>⟧ site.new out.new) result }
    ensures named { result ≢ Status.Usage }
{
    let Ok(mut src) = site.fetch(file) else {
        return Status::ReadFault;
    };
    let read = read_recording(alloc, &mut src);
    site.give_back(src);
    match read {
        Ok(figures) => print_table(alloc, figures, out),
        Err(refusal) => refusal.status(0),
    }
}

// Prints the table of a recording's samples.
fn print_table<O: Sink>(alloc: Global, figures: RunningCount<HalfUnits>, out: &mut O) -> Status
    requires few { figures.counts.samples ≤ MAX_SAMPLES }
    requires figures { (w : List ℤ) × AreFigures table_grid table_gain figures w }
    ensures done { O.tells → result ≡ Status.Done → (w : List ℤ) →
        AreFigures table_grid table_gain figures w →
        O.written out.new ≡ O.written out.old ++ text_of_samples w }
    ensures front { O.tells → result ≡ Status.WriteFault → (w : List ℤ) →
        AreFigures table_grid table_gain figures w →
        AppendsPrefix (O.written out.old) (O.written out.new) (text_of_samples w) }
    ensures nothing { O.tells → result ≢ Status.Done → result ≢ Status.WriteFault →
        O.written out.new ≡ O.written out.old }
    ensures write { result ≡ Status.WriteFault → CountRose (O.faults out.old) (O.faults out.new) }
    ensures printing { IsPrintingOrNoMemory result }
{
    let Ok(page) = table_page(alloc, figures) else {
        return Status::OutOfMemory;
    };
    match out.put(page.bytes()) {
        Ok(()) => Status::Done,
        Err(_) => Status::WriteFault,
    }
}
