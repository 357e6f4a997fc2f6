ghost use Rattle.std.specs.Prelude.{◌≡◌};
ghost use Rattle.status.specs.Shown.{shown_by};
ghost use Rattle.audit_command.specs.AuditRun.{AuditRuns};

use crate::audited::audit_held;
use outside::station::Station;
use outside::{Sink, Site, Source};
use segment_store::Store;
use site_config::MAX_NAME_BYTES;
use status::config_reading::read_config;
use status::fault_lines::{FaultLine, name_in, tell_fault, tell_no_memory};
use status::{Status, status_of};
use std::alloc::Global;

/// Counts the held samples of a site's recordings again, and compares them with what its store
/// holds. Whatever else than `Done` is answered is told by its line.
pub fn audit_command<C: Source, T: Site, K: Station, O: Sink>(
    alloc: Global,
    config: &mut C,
    site: &mut T,
    station: &mut K,
    out: &mut O,
) -> Status
    requires home { T.out site.old ≡ 0 }
    // What it did, by what is shown before and after: `specs/AuditRun.antt`.
    ensures run { AuditRuns
        (shown_by ⟦<C as Source>⟧ ⟦<T as Site>⟧ ⟦<K as Station>⟧ ⟦<O as Sink>⟧
        config.old site.old station.old out.old)
        (shown_by ⟦<C as Source>⟧ ⟦<T as Site>⟧ ⟦<K as Station>⟧ ⟦<O as Sink>⟧
        config.new site.new station.new out.new) result }
    ensures back { T.out site.new ≡ 0 }
    ensures files { T.tells → T.files site.new ≡ T.files site.old }
{
    let Ok(mut line) = FaultLine::new(alloc, MAX_NAME_BYTES) else {
        tell_no_memory(station);
        return Status::OutOfMemory;
    };
    let config = match read_config(alloc, config) {
        Ok(config) => config,
        Err(status) => {
            tell_fault(station, &mut line, status, "");
            return status;
        }
    };
    let store = match Store::resume(alloc, station, &config.setup) {
        Ok(store) => store,
        Err(fault) => {
            let status = status_of(fault);
            tell_fault(station, &mut line, status, "");
            return status;
        }
    };
    let status = audit_held(alloc, &config, &store, site, out);
    tell_fault(station, &mut line, status, name_in(&config, status));
    status
}
