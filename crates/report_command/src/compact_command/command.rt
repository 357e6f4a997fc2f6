ghost use Rattle.std.specs.Prelude.{◌≡◌, List};
ghost use Rattle.outside.specs.Fault.{CountRose};
ghost use Rattle.outside.specs.station.Station.{Image};
ghost use Rattle.segment.specs.segment_rules.Parts.{PartsValue};
ghost use Rattle.segment_store.specs.Held.{AreHeld, ends_of};
ghost use Rattle.segment_store.specs.Image.{Reads};
ghost use Rattle.status.specs.declared.status.Status.TheVariants.{WriteFault};
ghost use Rattle.status.specs.Printing.{IsPrinting};
ghost use Rattle.report_command.specs.StoreRun.{StoreRuns, store_shown};
ghost use Rattle.report_command.specs.compact_command.Copying.{Copies, IsCopying, WritesCopy};

use crate::over_store::{StoreWriter, run_over_store};
use outside::station::Station;
use outside::{Sink, Source};
use segment_store::{CompactFault, Store, compact_to};
use site_config::Config;
use status::{Status, status_of};
use std::alloc::Global;

/// Writes a compact copy of a site's store: version 2, and one body for each gauge that has
/// samples. Whatever else than `Done` is answered is told by its line.
pub fn compact_command<C: Source, K: Station, O: Sink>(
    alloc: Global,
    config: &mut C,
    station: &mut K,
    out: &mut O,
) -> Status
    // What it did, by what is shown before and after: `specs/StoreRun.antt`; what it writes:
    // `specs/compact_command/Copying.antt`.
    ensures run { StoreRuns WritesCopy
        (store_shown ⟦<C as Source>⟧ ⟦<K as Station>⟧ ⟦<O as Sink>⟧ config.old station.old out.old)
        (store_shown ⟦<C as Source>⟧ ⟦<K as Station>⟧ ⟦<O as Sink>⟧ config.new station.new out.new)
        result }
{
    run_over_store(alloc, &StoreCopy, config, station, out)
}

// A compact copy of the store.
#[derive(Drop)]
struct StoreCopy;

impl StoreWriter for StoreCopy {
    ghost use Rattle.report_command.specs.compact_command.Copying.{WritesCopy};

    ghost sound = { λ w. Unit {0} };

    ghost writes = { λ w. WritesCopy };

    fn write<K: Station, O: Sink>(
        &self,
        alloc: Global,
        config: &Config,
        station: &mut K,
        out: &mut O,
    ) -> Status {
        match Store::resume(alloc, station, &config.setup) {
            Ok(store) => write_copy(alloc, &store, out),
            Err(fault) => status_of(fault),
        }
    }
}

// Writes the copy of a store.
fn write_copy<O: Sink>(alloc: Global, store: &Store, out: &mut O) -> Status
    ensures copies { O.tells → (bodies : List PartsValue) (seen : Image) →
        Reads store.now.head bodies (ends_of store.now.held) seen →
        AreHeld store.now.head.setup.grid bodies store.now.held →
        Copies result store.now.head bodies (ends_of store.now.held) (O.written out.old)
        (O.written out.new) }
    ensures nothing { O.tells → (IsPrinting result → ⊥) → O.written out.new ≡ O.written out.old }
    ensures kind { IsCopying result }
    ensures write { result ≡ WriteFault → CountRose (O.faults out.old) (O.faults out.new) }
{
    match compact_to(alloc, store, out) {
        Ok(()) => Status::Done,
        Err(CompactFault::WriteFault) => Status::WriteFault,
        Err(CompactFault::OutOfMemory) => Status::OutOfMemory,
    }
}
