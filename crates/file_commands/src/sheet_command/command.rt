ghost use Rattle.std.specs.Prelude.{◌≡◌};
ghost use Rattle.status.specs.Shown.{shown_by};
ghost use Rattle.file_commands.specs.sheet_command.SheetRun.{SheetRuns};

use crate::sheet_command::reading::read_recordings;
use crate::sheet_command::writing::write_sheet;
use outside::station::Station;
use outside::{Sink, Site, Source};
use site_config::MAX_NAME_BYTES;
use status::Status;
use status::config_reading::read_config;
use status::fault_lines::{FaultLine, name_in, tell_fault, tell_no_memory};
use std::alloc::Global;

/// Prints the recordings of a site as a CSV text, under the names of their gauges.
///
/// Whatever else than `Done` is answered is told by its line. Nothing is printed before all
/// recordings were read.
pub fn sheet_command<C: Source, T: Site, K: Station, O: Sink>(
    alloc: Global,
    config: &mut C,
    site: &mut T,
    station: &mut K,
    out: &mut O,
) -> Status
    requires home { T.out site.old ≡ 0 }
    // What it did, by what is shown before and after: `specs/sheet_command/SheetRun.antt`.
    ensures run { SheetRuns
        (shown_by ⟦<C as Source>⟧ ⟦<T as Site>⟧ ⟦<K as Station>⟧ ⟦<O as Sink>⟧
        config.old site.old station.old out.old)
        (shown_by ⟦<C as Source>⟧ ⟦<T as Site>⟧ ⟦<K as Station>⟧ ⟦<O as Sink>⟧
        config.new site.new station.new out.new) result }
    ensures back { T.out site.new ≡ 0 }
    ensures files { T.tells → T.files site.new ≡ T.files site.old }
{
    let Ok(mut line) = FaultLine::new(alloc, MAX_NAME_BYTES) else {
        tell_no_memory(station);
        return Status::OutOfMemory;
    };
    let config = match read_config(alloc, config) {
        Ok(config) => config,
        Err(status) => {
            tell_fault(station, &mut line, status, "");
            return status;
        }
    };
    let recordings = match read_recordings(alloc, &config, site) {
        Ok(recordings) => recordings,
        Err(status) => {
            tell_fault(station, &mut line, status, name_in(&config, status));
            return status;
        }
    };
    let status = write_sheet(alloc, &config, recordings.as_slice(), out);
    tell_fault(station, &mut line, status, "");
    status
}
