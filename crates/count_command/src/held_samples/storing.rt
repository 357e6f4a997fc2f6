ghost use Rattle.std.specs.Prelude.{◌≡◌, ◌≤◌, ◌<◌, ◌+◌, ◌++◌, [], ◌∷◌, ℕ, List, false, length, slice_index, IsOk, OnOk};
ghost use Rattle.outside.specs.Fault.{HasCause};
ghost use Rattle.segment.specs.Parts.{parts_of};
ghost use Rattle.segment_store.specs.Held.{ends_of};
ghost use Rattle.segment_store.specs.Image.{ends_after};
ghost use Rattle.segment.specs.segment_rules.Parts.{PartsValue};
ghost use Rattle.segment_store.specs.Moments.{IsOn, IsThere};
ghost use Rattle.site_config.specs.declared.limits.TheConstants.{MAX_NAME_BYTES};
ghost use Rattle.site_config.specs.Valid.{IsConfig};
ghost use Rattle.site_config.specs.recorded.Recorded.{Recorded};
ghost use Rattle.count_command.specs.held_samples.Hook.{Follows};
ghost use Rattle.count_command.specs.held_samples.Told.{held_line, gauge_lines};
ghost use Rattle.count_command.specs.held_samples.Kept.{Kept, MayFollow};
ghost use Rattle.count_command.specs.held_samples.Going.{IsStoredAs, AreNames, HoldsSinceOver};
ghost use Rattle.count_command.specs.held_samples.Fronts.{IsHeldTo, AreFronts};
ghost use Rattle.count_command.specs.held_samples.Pace.{PacedOver};
ghost use Rattle.count_command.specs.held_samples.Stored.{Stores};

use crate::held_samples::hook::{Behind, PutHook};
use board::Board;
use outside::Failed;
use outside::station::Station;
use segment::Segment;
use segment_store::Store;
use site_config::Config;

// Stores the front of a gauge, and acknowledges it.
fn store_front<K: Station, H: PutHook>(
    store: &mut Store,
    station: &mut K,
    front: &Segment,
    name: &str,
    behind: &mut Behind<H>,
) -> Result<(), Failed>
    requires usable { store.old.shut ≡ false }
    requires follows { Follows H.follows behind.old.hook store.old }
    requires grid { front.now.grid ≡ store.old.head.setup.grid }
    requires gauge { (front.now.gauge < length store.old.held)
        × (length store.old.held ≡ length store.old.head.setup.gains) }
    requires some { front.now.from < front.now.to }
    requires next { front.now.from ≡ slice_index (ends_of store.old.held) front.now.gauge }
    requires on { K.tells → IsThere store.old (K.seen station.old) (K.leaves station.old) }
    requires short { length name.now ≤ MAX_NAME_BYTES }
    // Every moment is kept, whatever it answers.
    ensures going { K.tells → (r : Recorded) → AreNames r.names r.gauges →
        front.now.gauge < r.gauges →
        r.names front.now.gauge ≡ name.now → (kept : Kept) →
        IsStoredAs kept store.old (K.seen station.old) (K.leaves station.old) →
        MayFollow kept front.now →
        HoldsSinceOver ⟦<K as Station>⟧ kept r (ends_of store.old.held)
        station.old station.new (ends_of store.new.held) }
    ensures stored { K.tells → (kept : Kept) →
        IsStoredAs kept store.old (K.seen station.old) (K.leaves station.old) →
        MayFollow kept front.now →
        OnOk result (IsStoredAs kept store.new (K.seen station.new) (K.leaves station.new)) }
    // Each body is told before the next one is stored.
    ensures paced { K.tells → (names : ℕ → List ℕ) → names front.now.gauge ≡ name.now →
        (window : ℕ) → front.now.to ≤ front.now.from + window → (bodies : List PartsValue) →
        IsOn store.old bodies (K.seen station.old) (K.leaves station.old) →
        PacedOver ⟦<K as Station>⟧ names window store.old.head bodies
        station.old station.new store.new (IsOk result) }
    ensures told { K.tells → OnOk result (K.told station.new ≡
        K.told station.old ++ held_line name.now front.now.to ∷ []) }
    ensures held { OnOk result (ends_of store.new.held ≡
        ends_after (ends_of store.old.held) (parts_of front.now)) }
    ensures there { K.tells →
        OnOk result (IsThere store.new (K.seen station.new) (K.leaves station.new)) }
    ensures usable { OnOk result (store.new.shut ≡ false) }
    ensures head { store.new.head ≡ store.old.head }
    ensures gauges { length store.new.held ≡ length store.old.held }
    ensures cause { HasCause (K.faults station.old) (K.faults station.new) result }
    ensures follows { Follows H.follows behind.new.hook store.new }
{
    let to = front.name().to;
    let gauge = front.name().gauge;
    match store.put(station, front) {
        Ok(()) => {
            let stored = store.held(gauge);
            behind.hook.stored(stored);
            station.tell(behind.line.held(name, to))
        }
        Err(_) => Err(Failed),
    }
}

// Stores and acknowledges the front of a gauge, unless it is empty.
fn store_gauge<K: Station, H: PutHook>(
    store: &mut Store,
    station: &mut K,
    front: &Segment,
    name: &str,
    behind: &mut Behind<H>,
) -> Result<(), Failed>
    requires usable { store.old.shut ≡ false }
    requires follows { Follows H.follows behind.old.hook store.old }
    requires grid { front.now.grid ≡ store.old.head.setup.grid }
    requires gauge { (front.now.gauge < length store.old.held)
        × (length store.old.held ≡ length store.old.head.setup.gains) }
    requires ascends { front.now.from ≤ front.now.to }
    requires next { front.now.from ≡ slice_index (ends_of store.old.held) front.now.gauge }
    requires on { K.tells → IsThere store.old (K.seen station.old) (K.leaves station.old) }
    requires short { length name.now ≤ MAX_NAME_BYTES }
    ensures going { K.tells → (r : Recorded) → AreNames r.names r.gauges →
        front.now.gauge < r.gauges →
        r.names front.now.gauge ≡ name.now → (kept : Kept) →
        IsStoredAs kept store.old (K.seen station.old) (K.leaves station.old) →
        (front.now.from < front.now.to → MayFollow kept front.now) →
        HoldsSinceOver ⟦<K as Station>⟧ kept r (ends_of store.old.held)
        station.old station.new (ends_of store.new.held) }
    ensures stored { K.tells → (kept : Kept) →
        IsStoredAs kept store.old (K.seen station.old) (K.leaves station.old) →
        (front.now.from < front.now.to → MayFollow kept front.now) →
        OnOk result (IsStoredAs kept store.new (K.seen station.new) (K.leaves station.new)) }
    ensures paced { K.tells → (names : ℕ → List ℕ) → names front.now.gauge ≡ name.now →
        (window : ℕ) → front.now.to ≤ front.now.from + window → (bodies : List PartsValue) →
        IsOn store.old bodies (K.seen station.old) (K.leaves station.old) →
        PacedOver ⟦<K as Station>⟧ names window store.old.head bodies
        station.old station.new store.new (IsOk result) }
    ensures told { K.tells → OnOk result (K.told station.new ≡
        K.told station.old ++ gauge_lines name.now front.now.from front.now.to) }
    ensures held { OnOk result (IsHeldTo (ends_of store.old.held)
        front.now.gauge front.now.to (ends_of store.new.held)) }
    ensures there { K.tells →
        OnOk result (IsThere store.new (K.seen station.new) (K.leaves station.new)) }
    ensures usable { OnOk result (store.new.shut ≡ false) }
    ensures head { store.new.head ≡ store.old.head }
    ensures gauges { length store.new.held ≡ length store.old.held }
    ensures cause { HasCause (K.faults station.old) (K.faults station.new) result }
    ensures follows { Follows H.follows behind.new.hook store.new }
{
    let span = front.name();
    if span.from == span.to {
        return Ok(());
    }
    store_front(store, station, front, name, behind)
}

/// Stores and acknowledges what a round gave, in order of gauge. After a failure the store is shut,
/// or a line was not told; the gauges below keep what was stored of them.
pub fn store_fronts<K: Station, H: PutHook>(
    board: &Board,
    config: &Config,
    store: &mut Store,
    station: &mut K,
    behind: &mut Behind<H>,
) -> Result<(), Failed>
    requires usable { store.old.shut ≡ false }
    requires follows { Follows H.follows behind.old.hook store.old }
    requires config { IsConfig config.now }
    requires gauges { (length store.old.held ≡ length config.now.gauges)
        × (length board.now.rows ≡ length config.now.gauges) }
    requires setup { store.old.head.setup ≡ config.now.setup }
    requires fronts { AreFronts store.old.head.setup (ends_of store.old.held) board.now
        (length config.now.gauges) }
    requires on { K.tells → IsThere store.old (K.seen station.old) (K.leaves station.old) }
    ensures stores { Stores ⟦<K as Station>⟧ config.now board.now store.old store.new
        station.old station.new result }
    ensures follows { Follows H.follows behind.new.hook store.new }
{
    for gauge in 0..config.gauges.as_slice().len() {
        let name = config.gauges.as_slice()[gauge].name.as_str();
        store_gauge(store, station, board.front(gauge as u16), name, behind)?;
    }
    Ok(())
}
