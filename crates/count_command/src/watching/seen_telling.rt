ghost use Rattle.std.specs.Prelude.{◌≡◌, ◌≤◌, ◌<◌, ℕ, length, slice_index, OnOk};
ghost use Rattle.std.specs.Bool.{OnTrue};
ghost use Rattle.outside.specs.Fault.{HasCause};
ghost use Rattle.outside.specs.Site.{Files};
ghost use Rattle.segment_store.specs.Held.{ends_of};
ghost use Rattle.site_config.specs.declared.limits.TheConstants.{MAX_NAME_BYTES};
ghost use Rattle.site_config.specs.Valid.{IsConfig};
ghost use Rattle.site_config.specs.recorded.Recorded.{recordings};
ghost use Rattle.count_command.specs.watching.Seen.{IsSeenLine, TellsOnlySeen, TellsSeen};
ghost use Rattle.count_command.specs.watching.Steps.{IsSeenLineOf, IsStep, TellsSteps};

use crate::held_samples::HeldLine;
use crate::watching::ends::{MOST_ENDS_BESIDE, SeenEnds};
use board::flow::BLOCKS_PER_WINDOW;
use outside::Failed;
use outside::station::Station;
use segment_store::Store;
use site_config::Config;

// Whether an end from `least` on is that of so many whole rounds, below what is held.
fn is_step(start: u64, step: u64, held: u64, least: u64, end: u64) -> bool
    requires { 1 ≤ step }
    ensures step { OnTrue result (IsStep start step held end) }
    ensures least { OnTrue result (least ≤ end) }
{
    least <= end && start <= end && end < held && (end - start) % step == 0
}

// Tells the ends of a gauge that are those of whole rounds and ascend, and then what is held of it.
// Of so many as are kept of looks beside the puts, since the last look sees what is held.
fn tell_gauge<K: Station>(
    station: &mut K,
    line: &mut HeldLine,
    name: &str,
    ends: &[u64],
    start: u64,
    step: u64,
    held: u64,
) -> Result<(), Failed>
    requires short { length name.now ≤ MAX_NAME_BYTES }
    requires step { 1 ≤ step }
    ensures only { K.tells → TellsOnlySeen ⟦<K as Station>⟧
        (IsSeenLineOf name.now start step held) station.old station.new }
    ensures told { K.tells → OnOk result
        (TellsSteps name.now start step held (K.told station.old) (K.told station.new)) }
    ensures cause { HasCause (K.faults station.old) (K.faults station.new) result }
{
    let mut least = 0;
    let most = ends.len().min(MOST_ENDS_BESIDE);
    for i in 0..most {
        let end = ends[i];
        if !is_step(start, step, held, least, end) {
            continue;
        }
        station.tell(line.seen(name, end))?;
        least = end + 1;
    }
    station.tell(line.seen(name, held))
}

/// Tells what a watcher saw, by gauge: of the ends that were kept those that are numbers of held
/// lines, or where the gauge ended before, ascending, and then what is held. A failure is one of
/// the station; nothing else is done.
pub fn tell_seen<K: Station>(
    config: &Config,
    store: &Store,
    station: &mut K,
    line: &mut HeldLine,
    ends: &SeenEnds,
) -> Result<(), Failed>
    requires config { IsConfig config.now }
    requires gauges { length store.now.held ≡ length config.now.gauges }
    ensures only { K.tells → TellsOnlySeen ⟦<K as Station>⟧
        (IsSeenLine config.now ends.now (ends_of store.now.held)) station.old station.new }
    // Where all samples are held.
    ensures told { K.tells → (files : Files) → ((g : ℕ) → g < length config.now.gauges →
        slice_index (ends_of store.now.held) g ≡ length ((recordings config.now files).samples g)) →
        OnOk result (TellsSeen config.now.block (recordings config.now files) ends.now
        (K.told station.old) (K.told station.new)) }
    ensures cause { HasCause (K.faults station.old) (K.faults station.new) result }
{
    let step = BLOCKS_PER_WINDOW as u64 * u64::from(config.block);
    for gauge in 0..config.gauges.as_slice().len() {
        let name = config.gauges.as_slice()[gauge].name.as_str();
        let held = store.held(gauge as u16).name().to;
        tell_gauge(
            station,
            line,
            name,
            ends.of(gauge),
            ends.start(gauge),
            step,
            held,
        )?;
    }
    Ok(())
}
