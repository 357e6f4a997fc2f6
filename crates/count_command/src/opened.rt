ghost use Rattle.std.specs.Prelude.{◌≡◌, ◌≤◌, ℕ, ℤ, List, length};
ghost use Rattle.outside.specs.Fault.{CountRose};
ghost use Rattle.calibration.specs.declared.limits.TheConstants.{MAX_WORKERS};
ghost use Rattle.site_config.specs.Valid.{IsConfig};
ghost use Rattle.report_command.specs.site_report.Room.{HasRoom};
ghost use Rattle.status.specs.declared.status.Status.TheVariants.{WriteFault};
ghost use Rattle.status.specs.Printing.{IsPrinting};
ghost use Rattle.count_command.specs.declared.course.Course.TheVariants.{Count};
ghost use Rattle.count_command.specs.held_rounds.Ready.{AreOpenedLanes};
ghost use Rattle.count_command.specs.Opened.{OpenedRuns};
ghost use Rattle.count_command.specs.Printed.{AllStandFor, Prints};

use crate::course::Run;
use crate::held_rounds::count_rounds;
use crate::held_samples::{Behind, HeldLine, NoHook};
use crate::rooms::{Rooms, take_rooms};
use count_workers::lane_loans::Lane;
use outside::station::Station;
use outside::{Gate, Sink, Source};
use report_command::site_report::Report;
use segment_store::Store;
use site_config::Config;
use site_lanes::first_fault;
use status::Status;
use std::sync::Wait;
use std::thread::Threads;

/// Prints the report of what is held.
pub fn print_held<O: Sink>(
    config: &Config,
    store: &Store,
    report: &mut Report,
    out: &mut O,
) -> Status
    requires config { IsConfig config.now }
    requires setup { store.now.head.setup ≡ config.now.setup }
    requires gauges { length store.now.held ≡ length config.now.gauges }
    requires room { HasRoom config.now report.old }
    ensures prints { O.tells → (w : ℕ → List ℤ) → AllStandFor config.now.setup w store.now.held →
        Prints result config.now w (O.written out.old) (O.written out.new) }
    ensures kind { IsPrinting result }
    ensures write { result ≡ WriteFault → CountRose (O.faults out.old) (O.faults out.new) }
{
    match report.print(config, store.segments(), out) {
        Ok(()) => Status::Done,
        Err(_) => Status::WriteFault,
    }
}

/// Rounds over lanes that were opened, and then the report. All memory is taken before the first
/// round.
pub fn count_opened<
    R: AllocGlobal + Threads + Wait + Sync,
    C: Source + Send,
    K: Station,
    O: Sink,
    G: Gate + Sync,
>(
    run: &Run<'_, R, G>,
    store: &mut Store,
    lanes: &mut [Lane<C>],
    station: &mut K,
    out: &mut O,
) -> Status
    requires workers { (1 ≤ run.now.workers) × (run.now.workers ≤ MAX_WORKERS) }
    requires opened { AreOpenedLanes ⟦<C as Source>⟧ ⟦<K as Station>⟧ run.now.config.now store.old
        lanes.old station.old }
    ensures run { OpenedRuns Count ⟦<C as Source>⟧ ⟦<K as Station>⟧ ⟦<O as Sink>⟧
        run.now.config.now store.old store.new lanes.old lanes.new station.old station.new out.old out.new result }
{
    let Ok(rooms) = take_rooms(run.rt.alloc(), run.workers, run.config) else {
        return Status::OutOfMemory;
    };
    let Rooms {
        mut rounds,
        mut report,
    } = rooms;
    let Ok(line) = HeldLine::new(run.rt.alloc()) else {
        return Status::OutOfMemory;
    };
    let mut behind = Behind { line, hook: NoHook };
    match count_rounds(run, &mut rounds, lanes, store, station, &mut behind) {
        Ok(()) => {}
        Err(_) => return Status::DiskFault,
    }
    match first_fault(lanes) {
        Some(status) => status,
        None => print_held(run.config, store, &mut report, out),
    }
}
