ghost use Rattle.std.specs.Prelude.{◌≡◌, ◌<◌, ℕ, ℤ, List, length, IfSome};
ghost use Rattle.site_config.specs.Valid.{IsConfig};
ghost use Rattle.audit_command.specs.Audited.{IsItem, IsOther, FirstOther};
ghost use Rattle.audit_command.specs.Recounted.{AreOf, AreOver};

use recount::{Recount, first_difference};
use segment_store::Store;
use site_config::Config;
use status::Status;

/// The first difference between what is held and what was counted again, in order of gauge.
pub(crate) fn first_other(config: &Config, store: &Store, recounts: &[Recount]) -> Option<Status>
    requires config { IsConfig config.now }
    requires setup { store.now.head.setup ≡ config.now.setup }
    requires held { length store.now.held ≡ length config.now.gauges }
    requires all { length recounts.now ≡ length config.now.gauges }
    requires classes { AreOver config.now recounts.now }
    ensures finds { (w : ℕ → List ℤ) → AreOf config.now recounts.now w →
        FirstOther config.now (IsItem store.now.held) w result }
    ensures kind { IfSome result IsOther }
{
    for gauge in 0..recounts.len() {
        let held = store.held(gauge as u16);
        // What a segment keeps: its rules.
        let _grid = held.grid();
        if let Some(other) = first_difference(held, &recounts[gauge]) {
            return Some(Status::Differs {
                gauge: gauge as u16,
                what: other.what,
                held: other.held,
                found: other.found,
            });
        }
    }
    None
}
