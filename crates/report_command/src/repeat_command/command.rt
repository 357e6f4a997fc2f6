ghost use Rattle.report_command.specs.StoreRun.{StoreRuns, store_shown};
ghost use Rattle.report_command.specs.repeat_command.Printing.{WritesRepeats};

use crate::over_store::{StoreWriter, run_over_store};
use crate::repeat_command::printing::print_held;
use outside::station::Station;
use outside::{Sink, Source};
use repeating::Repeating;
use report::Page;
use segment_store::Store;
use site_config::Config;
use status::{Status, status_of};
use std::alloc::Global;

/// Prints what the store of a site holds of each gauge as a history that repeats. Whatever else
/// than `Done` is answered is told by its line.
pub fn repeat_command<C: Source, K: Station, O: Sink>(
    alloc: Global,
    config: &mut C,
    station: &mut K,
    out: &mut O,
) -> Status
    // What it did, by what is shown before and after: `specs/StoreRun.antt`; what it writes:
    // `specs/repeat_command/Printing.antt`.
    ensures run { StoreRuns WritesRepeats
        (store_shown ⟦<C as Source>⟧ ⟦<K as Station>⟧ ⟦<O as Sink>⟧ config.old station.old out.old)
        (store_shown ⟦<C as Source>⟧ ⟦<K as Station>⟧ ⟦<O as Sink>⟧ config.new station.new out.new)
        result }
{
    run_over_store(alloc, &RepeatText, config, station, out)
}

// What is held of each gauge, as a history that repeats.
#[derive(Drop)]
struct RepeatText;

impl StoreWriter for RepeatText {
    ghost use Rattle.report_command.specs.repeat_command.Printing.{WritesRepeats};

    ghost sound = { λ w. Unit {0} };

    ghost writes = { λ w. WritesRepeats };

    fn write<K: Station, O: Sink>(
        &self,
        alloc: Global,
        config: &Config,
        station: &mut K,
        out: &mut O,
    ) -> Status {
        let Ok(mut page) = Page::new(alloc, config.setup.grid.classes()) else {
            return Status::OutOfMemory;
        };
        let Ok(mut count) = Repeating::new(alloc, &config.setup.grid) else {
            return Status::OutOfMemory;
        };
        match Store::resume(alloc, station, &config.setup) {
            Ok(store) => print_held(config, &store, &mut count, &mut page, out),
            Err(fault) => status_of(fault),
        }
    }
}
