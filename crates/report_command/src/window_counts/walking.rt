ghost use Rattle.std.specs.Prelude.{◌≡◌, ◌≤◌, ℕ, List, length, IfOk};
ghost use Rattle.calibration.specs.declared.limits.TheConstants.{MAX_GAUGES};
ghost use Rattle.segment.specs.segment_rules.Parts.{PartsValue};
ghost use Rattle.store_bytes.specs.store_head.Head.{HeadValue};
ghost use Rattle.segment_store.specs.Image.{Reads, IsStoreOf};
ghost use Rattle.report_command.specs.window_counts.Windows.{AreInstants};
ghost use Rattle.report_command.specs.window_counts.Counted.{AreCounted, WalksOver};

use crate::window_counts::counting::{Times, Windows};
use calibration::Setup;
use outside::station::Station;
use recording::Head;
use segment_store::{ResumeFault, each_body, read_head};
use std::alloc::Global;

/// Counts a window of each gauge over the bodies of a store. It reads the head first, where the
/// periods of the recordings stand, and then walks over the bodies. It writes and tells nothing.
pub fn count_windows<K: Station>(
    alloc: Global,
    station: &mut K,
    setup: &Setup,
    times: Times,
) -> Result<Windows, ResumeFault>
    requires few { length setup.now.gains ≤ MAX_GAUGES }
    requires times { AreInstants times }
    // As whatever head and bodies a read at entry reads, these are counted.
    ensures counted { K.tells → (head : HeadValue) (bodies : List PartsValue) (ends : List ℕ) →
        head.setup ≡ setup.now → Reads head bodies ends (K.seen station.old) →
        IfOk result (λ w. AreCounted setup.now times head.heads bodies w.joined) }
    ensures there { K.tells → IfOk result (λ _. IsStoreOf setup.now (K.seen station.old)) }
    ensures gauges { IfOk result (λ w. length w.joined ≡ length setup.now.gains) }
    ensures grid { IfOk result (λ w. w.grid ≡ setup.now.grid) }
    ensures walk { WalksOver ⟦<K as Station>⟧ setup.now station.old station.new result }
{
    match read_head(alloc, station, setup) {
        Ok(head) => count_by(alloc, station, setup, head.heads.as_slice(), times),
        Err(fault) => Err(fault),
    }
}

// The same by the recordings of the store's head.
fn count_by<K: Station>(
    alloc: Global,
    station: &mut K,
    setup: &Setup,
    heads: &[Head],
    times: Times,
) -> Result<Windows, ResumeFault>
    requires few { length setup.now.gains ≤ MAX_GAUGES }
    requires times { AreInstants times }
    requires many { length heads.now ≡ length setup.now.gains }
    ensures counted { K.tells → (head : HeadValue) (bodies : List PartsValue) (ends : List ℕ) →
        head.setup ≡ setup.now → head.heads ≡ heads.now →
        Reads head bodies ends (K.seen station.old) →
        IfOk result (λ w. AreCounted setup.now times head.heads bodies w.joined) }
    ensures there { K.tells → IfOk result (λ _. IsStoreOf setup.now (K.seen station.old)) }
    ensures gauges { IfOk result (λ w. length w.joined ≡ length setup.now.gains) }
    ensures grid { IfOk result (λ w. w.grid ≡ setup.now.grid) }
    ensures walk { WalksOver ⟦<K as Station>⟧ setup.now station.old station.new result }
{
    let Ok(mut windows) = Windows::new(alloc, &setup.grid, heads, times) else {
        return Err(ResumeFault::OutOfMemory);
    };
    match each_body(alloc, station, setup, &mut windows) {
        Ok(_) => Ok(windows),
        Err(fault) => Err(fault),
    }
}
