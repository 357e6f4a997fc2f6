ghost use Rattle.report_command.specs.StoreRun.{StoreRuns, store_shown};

use outside::station::Station;
use outside::{Sink, Source};
use site_config::{Config, MAX_NAME_BYTES};
use status::Status;
use status::config_reading::read_config;
use status::fault_lines::{FaultLine, tell_fault, tell_no_memory};
use std::alloc::Global;

/// What a command writes over what a store holds.
pub(crate) trait StoreWriter {
    ghost use Rattle.site_config.specs.Valid.{IsConfig};
    ghost use Rattle.report_command.specs.StoreRun.{Writing, IsUntold};

    // What it can be asked for.
    ghost sound: { Self → Type 0 };

    // What it has to write.
    ghost writes: { Self → Writing };

    // Writes it by a configuration, and tells nothing.
    fn write<K: Station, O: Sink>(
        &self,
        alloc: Global,
        config: &Config,
        station: &mut K,
        out: &mut O,
    ) -> Status
        requires sound { sound self.now }
        requires config { IsConfig config.now }
        ensures run { IsUntold (writes self.now) ⟦<K as Station>⟧ ⟦<O as Sink>⟧ config.now
            station.old station.new out.old out.new result };
}

// A run of the command that writes this.
pub(crate) fn run_over_store<W: StoreWriter, C: Source, K: Station, O: Sink>(
    alloc: Global,
    writer: &W,
    config: &mut C,
    station: &mut K,
    out: &mut O,
) -> Status
    requires sound { W.sound writer.now }
    ensures run { StoreRuns (W.writes writer.now)
        (store_shown ⟦<C as Source>⟧ ⟦<K as Station>⟧ ⟦<O as Sink>⟧ config.old station.old out.old)
        (store_shown ⟦<C as Source>⟧ ⟦<K as Station>⟧ ⟦<O as Sink>⟧ config.new station.new out.new)
        result }
{
    let Ok(mut line) = FaultLine::new(alloc, MAX_NAME_BYTES) else {
        tell_no_memory(station);
        return Status::OutOfMemory;
    };
    match read_config(alloc, config) {
        Ok(config) => {
            let status = writer.write(alloc, &config, station, out);
            tell_fault(station, &mut line, status, "");
            status
        }
        Err(status) => {
            tell_fault(station, &mut line, status, "");
            status
        }
    }
}
