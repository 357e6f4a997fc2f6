ghost use Rattle.std.specs.Prelude.{◌≡◌};
ghost use Rattle.init_command.specs.InitRun.{InitRuns, no_output};
ghost use Rattle.status.specs.Shown.{shown_by};

use crate::heads::read_heads;
use crate::making::make_store;
use outside::station::Station;
use outside::{Site, Source};
use site_config::MAX_NAME_BYTES;
use status::Status;
use status::config_reading::read_config;
use status::fault_lines::{FaultLine, name_in, tell_fault, tell_no_memory};
use std::alloc::Global;
use store_bytes::store_head::StoreHead;

/// Makes the store of a site, by its configuration and the heads of its recordings, and tells
/// `init G`, with the number of gauges. Whatever else is answered is told by its line.
pub fn init_command<C: Source, T: Site, K: Station>(
    alloc: Global,
    config: &mut C,
    site: &mut T,
    station: &mut K,
) -> Status
    requires home { T.out site.old ≡ 0 }
    // What it did, by what is shown before and after: `specs/InitRun.antt`.
    ensures run { InitRuns
        (shown_by ⟦<C as Source>⟧ ⟦<T as Site>⟧ ⟦<K as Station>⟧ no_output
        config.old site.old station.old tt)
        (shown_by ⟦<C as Source>⟧ ⟦<T as Site>⟧ ⟦<K as Station>⟧ no_output
        config.new site.new station.new tt) result }
    ensures back { T.out site.new ≡ 0 }
    ensures files { T.tells → T.files site.new ≡ T.files site.old }
{
    let Ok(mut line) = FaultLine::new(alloc, MAX_NAME_BYTES) else {
        tell_no_memory(station);
        return Status::OutOfMemory;
    };
    let config = match read_config(alloc, config) {
        Ok(config) => config,
        Err(status) => {
            tell_fault(station, &mut line, status, "");
            return status;
        }
    };
    let heads = match read_heads(alloc, &config, site) {
        Ok(heads) => heads,
        Err(status) => {
            tell_fault(station, &mut line, status, name_in(&config, status));
            return status;
        }
    };
    let head = StoreHead {
        setup: config.setup,
        heads,
    };
    let status = make_store(alloc, &head, station);
    tell_fault(station, &mut line, status, "");
    status
}
