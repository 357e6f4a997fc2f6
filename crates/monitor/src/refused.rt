ghost use Rattle.std.specs.Prelude.{◌≡◌, ◌⊎◌, []};
ghost use Rattle.outside.specs.Fault.{CountRose};
ghost use Rattle.status.specs.fault_lines.FaultLine.{fault_line};
ghost use Rattle.status.specs.fault_lines.Telling.{TellsOnly, EndsIn};

use outside::station::Station;
use status::Status;
use status::fault_lines::{FaultLine, tell_fault, tell_no_memory};
use std::alloc::Global;

/// Tells that the words are no command.
pub(crate) fn usage<K: Station>(alloc: Global, station: &mut K) -> Status
    ensures status { (result ≡ Status.Usage) ⊎ (result ≡ Status.OutOfMemory) }
    ensures told { K.tells → TellsOnly ⟦<K as Station>⟧ (fault_line result [])
        station.old station.new }
    ensures last { K.tells → CountRose (K.faults station.old) (K.faults station.new) ⊎
        EndsIn (fault_line result []) (K.told station.new) }
{
    let Ok(mut line) = FaultLine::new(alloc, 0) else {
        return no_memory(station);
    };
    tell_fault(station, &mut line, Status::Usage, "");
    Status::Usage
}

/// Tells that memory ran out.
pub(crate) fn no_memory<K: Station>(station: &mut K) -> Status
    ensures status { result ≡ Status.OutOfMemory }
    ensures told { K.tells → TellsOnly ⟦<K as Station>⟧ (fault_line Status.OutOfMemory [])
        station.old station.new }
    ensures last { K.tells → CountRose (K.faults station.old) (K.faults station.new) ⊎
        EndsIn (fault_line Status.OutOfMemory []) (K.told station.new) }
{
    tell_no_memory(station);
    Status::OutOfMemory
}
