ghost use Rattle.std.specs.Prelude.{◌≡◌, ◌≢◌, ◌≤◌, ◌⊎◌, []};
ghost use Rattle.outside.specs.Fault.{CountRose};
ghost use Rattle.calibration.specs.declared.limits.TheConstants.{MAX_WORKERS};
ghost use Rattle.status.specs.fault_lines.FaultLine.{fault_line};
ghost use Rattle.status.specs.fault_lines.Telling.{TellsOnly, EndsIn};
ghost use Rattle.demo_command.specs.DemoRun.{DemoRuns};
ghost use Rattle.calibration.specs.declared.limits.TheConstants.{MAX_SEED, MAX_DEMO_SAMPLES};

use demo_command::demo_command;
use outside::station::Station;
use outside::{Gate, Sink};
use status::Status;
use status::fault_lines::{FaultLine, tell_fault, tell_no_memory};
use std::sync::Wait;
use std::thread::Threads;

/// Counts recordings that are made from a seed, and tells whatever else than `Done` is answered.
/// Where there is no room for that line nothing is counted.
pub(crate) fn told_demo<
    R: AllocGlobal + Threads + Wait + Sync,
    K: Station,
    O: Sink,
    G: Gate + Sync,
>(rt: &R, seed: u64, samples: u64, workers: u8, station: &mut K, out: &mut O, gate: &G) -> Status
    requires seed { seed ≤ MAX_SEED }
    requires samples { (1 ≤ samples) × (samples ≤ MAX_DEMO_SAMPLES) }
    requires workers { (1 ≤ workers) × (workers ≤ MAX_WORKERS) }
    ensures run { DemoRuns seed samples O.tells (O.written out.old) (O.written out.new)
        (O.faults out.old) (O.faults out.new) result }
    ensures told { K.tells → TellsOnly ⟦<K as Station>⟧ (fault_line result [])
        station.old station.new }
    ensures silent { K.tells → result ≡ Status.Done → K.told station.new ≡ K.told station.old }
    ensures last { K.tells → result ≢ Status.Done →
        CountRose (K.faults station.old) (K.faults station.new) ⊎
        EndsIn (fault_line result []) (K.told station.new) }
{
    let Ok(mut line) = FaultLine::new(rt.alloc(), 0) else {
        tell_no_memory(station);
        return Status::OutOfMemory;
    };
    let status = demo_command(rt, seed, samples, workers, out, gate);
    tell_fault(station, &mut line, status, "");
    status
}
