ghost use Rattle.std.specs.Prelude.{◌≡◌, ◌≢◌, ◌≤◌, ◌⊎◌, ◌++◌, [], ◌∷◌, length};
ghost use Rattle.outside.specs.Fault.{CountRose};
ghost use Rattle.status.specs.fault_lines.FaultLine.{fault_line};
ghost use Rattle.status.specs.fault_lines.Telling.{TellsOnly};
ghost use Rattle.status.specs.declared.status.Status.TheVariants.{OutOfMemory};

use crate::Status;
use crate::fault_lines::FaultLine;
use outside::station::Station;

/// Tells the line of a status, if it is not `Done`. Where the station fails the line was told or
/// was not.
pub fn tell_fault<K: Station>(station: &mut K, line: &mut FaultLine, status: Status, name: &str)
    requires { length name.now ≤ line.old.name_bytes }
    ensures tells { K.tells → TellsOnly ⟦<K as Station>⟧ (fault_line status name.now)
        station.old station.new }
    ensures nothing { K.tells → status ≡ Status.Done → K.told station.new ≡ K.told station.old }
    ensures last { K.tells → status ≢ Status.Done →
        CountRose (K.faults station.old) (K.faults station.new) ⊎
        (K.told station.new ≡ K.told station.old ++ fault_line status name.now ∷ []) }
    ensures later { K.faults station.old ≤ K.faults station.new }
    ensures room { line.new.name_bytes ≡ line.old.name_bytes }
{
    if !matches!(status, Status::Done) {
        line.write(status, name);
        tell_line(station, line.bytes());
    }
}

/// Tells that memory ran out, for which no room is needed.
pub fn tell_no_memory<K: Station>(station: &mut K)
    ensures tells { K.tells → TellsOnly ⟦<K as Station>⟧ (fault_line OutOfMemory []) station.old station.new }
    ensures last { K.tells → CountRose (K.faults station.old) (K.faults station.new) ⊎
        (K.told station.new ≡ K.told station.old ++ fault_line OutOfMemory [] ∷ []) }
    ensures later { K.faults station.old ≤ K.faults station.new }
{
    tell_line(station, b"out of memory\n");
}

fn tell_line<K: Station>(station: &mut K, line: &[u8])
    ensures tells { K.tells → TellsOnly ⟦<K as Station>⟧ line.now station.old station.new }
    ensures last { K.tells → CountRose (K.faults station.old) (K.faults station.new) ⊎
        (K.told station.new ≡ K.told station.old ++ line.now ∷ []) }
    ensures later { K.faults station.old ≤ K.faults station.new }
{
    let _ = station.tell(line);
}
