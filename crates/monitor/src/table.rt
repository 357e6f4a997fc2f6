ghost use Rattle.std.specs.Prelude.{◌≡◌, ◌≢◌, ◌⊎◌};
ghost use Rattle.outside.specs.Fault.{CountRose};
ghost use Rattle.status.specs.fault_lines.FaultLine.{fault_line};
ghost use Rattle.status.specs.fault_lines.Telling.{TellsOnly, EndsIn};
ghost use Rattle.file_commands.specs.file_tasks.Run.{Runs, no_memory_task, outside};
ghost use Rattle.monitor.specs.Task.{table_task};

use crate::command::table_command;
use crate::refused::no_memory;
use outside::station::Station;
use outside::{Sink, Site};
use status::Status;
use status::fault_lines::{FaultLine, tell_fault};
use std::alloc::Global;

/// Prints the rainflow table of a recording, and tells whatever else is answered, with the file's
/// name. Where there is no room for that line nothing is asked for.
pub(crate) fn told_table<T: Site, K: Station, O: Sink>(
    alloc: Global,
    file: &str,
    site: &mut T,
    station: &mut K,
    out: &mut O,
) -> Status
    requires home { T.out site.old ≡ 0 }
    ensures run { Runs (table_task file.now (T.files site.old))
        (outside ⟦<T as Site>⟧ ⟦<O as Sink>⟧ site.old out.old)
        (outside ⟦<T as Site>⟧ ⟦<O as Sink>⟧ site.new out.new) result ⊎
        Runs no_memory_task
        (outside ⟦<T as Site>⟧ ⟦<O as Sink>⟧ site.old out.old)
        (outside ⟦<T as Site>⟧ ⟦<O as Sink>⟧ site.new out.new) result }
    ensures named { result ≢ Status.Usage }
    ensures told { K.tells → TellsOnly ⟦<K as Station>⟧ (fault_line result file.now)
        station.old station.new }
    ensures silent { K.tells → result ≡ Status.Done → K.told station.new ≡ K.told station.old }
    ensures last { K.tells → result ≢ Status.Done →
        CountRose (K.faults station.old) (K.faults station.new) ⊎
        EndsIn (fault_line result file.now) (K.told station.new) }
{
    let Ok(mut line) = FaultLine::new(alloc, file.len()) else {
        return no_memory(station);
    };
    let status = table_command(alloc, file, site, out);
    tell_fault(station, &mut line, status, file);
    status
}
