ghost use Rattle.std.specs.Prelude.{◌≤◌};
ghost use Rattle.calibration.specs.declared.limits.TheConstants.{MAX_WORKERS};
ghost use Rattle.count_command.specs.declared.course.Course.TheVariants.{Watch as Watching};
ghost use Rattle.count_command.specs.held_rounds.Ready.{AreOpenedLanes};
ghost use Rattle.count_command.specs.Opened.{OpenedRuns};

use crate::course::Run;
use crate::opened::print_held;
use crate::rooms::{Rooms, take_rooms};
use crate::watching::{Watch, Watched, tell_seen, watch_rounds};
use count_workers::lane_loans::Lane;
use outside::station::Station;
use outside::{Gate, Sink, Source};
use segment_store::Store;
use site_lanes::first_fault;
use status::Status;
use std::sync::Wait;
use std::thread::Threads;

/// Rounds over lanes that were opened, each put of which is shown to a watcher, then the lines of
/// what it saw, and then the report. All memory is taken before the first round, but for what the
/// shows take.
pub fn watch_opened<
    R: AllocGlobal + Threads + Wait + Sync,
    C: Source + Send,
    K: Station,
    O: Sink,
    G: Gate + Sync,
>(
    run: &Run<'_, R, G>,
    store: &mut Store,
    lanes: &mut [Lane<C>],
    station: &mut K,
    out: &mut O,
) -> Status
    requires workers { (1 ≤ run.now.workers) × (run.now.workers ≤ MAX_WORKERS) }
    requires opened { AreOpenedLanes ⟦<C as Source>⟧ ⟦<K as Station>⟧ run.now.config.now store.old
        lanes.old station.old }
    ensures run { OpenedRuns Watching ⟦<C as Source>⟧ ⟦<K as Station>⟧ ⟦<O as Sink>⟧
        run.now.config.now store.old store.new lanes.old lanes.new station.old station.new out.old out.new result }
{
    let Ok(rooms) = take_rooms(run.rt.alloc(), run.workers, run.config) else {
        return Status::OutOfMemory;
    };
    let Rooms { rounds, mut report } = rooms;
    let gauges = run.config.gauges.as_slice().len() as u16;
    let Ok(watch) = Watch::new(run.rt, &run.config.setup.grid, gauges, store) else {
        return Status::OutOfMemory;
    };
    let (done, watched) = watch_rounds(run, rounds, lanes, store, station, watch);
    let Watched {
        mut line,
        ends,
        refused,
    } = watched;
    match done {
        Ok(()) => {}
        Err(_) => return Status::DiskFault,
    }
    if refused {
        return Status::OutOfMemory;
    }
    if let Some(status) = first_fault(lanes) {
        return status;
    }
    match tell_seen(run.config, store, station, &mut line, &ends) {
        Ok(()) => print_held(run.config, store, &mut report, out),
        Err(_) => Status::DiskFault,
    }
}
