ghost use Rattle.std.specs.Prelude.{◌≡◌, false, length};
ghost use Rattle.std.specs.Thread.{IsSync, IsSend};
ghost use Rattle.count_workers.specs.round_making.Round.{RoundDone};
ghost use Rattle.segment_store.specs.Held.{ends_of};
ghost use Rattle.segment_store.specs.Moments.{IsThere};
ghost use Rattle.site_config.specs.Valid.{IsConfig};
ghost use Rattle.count_command.specs.held_samples.Hook.{Follows};
ghost use Rattle.count_command.specs.held_samples.Fronts.{AreFronts};
ghost use Rattle.site_lanes.specs.Lanes.{AreReady};
ghost use Rattle.count_command.specs.held_rounds.Made.{RoundsMade};
ghost use Rattle.count_command.specs.held_rounds.Ready.{AreOpenedLanes, AreRoundsFor};
ghost use Rattle.count_command.specs.held_samples.Stored.{Stores};

use crate::held_samples::{Behind, PutHook, store_fronts};
use board::Board;
use count_workers::Prepared;
use count_workers::crew::Helpers;
use count_workers::lane_loans::Lane;
use outside::station::Station;
use outside::{Failed, Gate, Source};
use segment_store::Store;
use site_config::Config;
use site_lanes::have_ended;
use std::sync::Wait;
use std::sync::atomic::AtomicBool;
use std::sync::atomic::Ordering::SeqCst;
use std::thread;
use std::thread::{Threads, join_mut};

/// What rounds go by, and who counts for several workers beside them. One worker has no helpers.
#[derive(Drop)]
pub(crate) struct HelpedRun<'a, 'h, R, G> {
    pub(crate) rt: &'a R,
    pub(crate) gate: &'a G,
    pub(crate) config: &'a Config,
    pub(crate) helpers: Option<&'h Helpers>,
}

// How often the thread of the puts looks in vain for a block, and for the end of the round beside
// them, before it sleeps.
const LOOKS: u32 = 20_000;

// Counts for the round until it has ended, and looks for its end, so that the next one begins at
// once: a thread that sleeps may wake late. Who has counted looks again, since the others may have
// passed over what it had in hand, and who leaves before the end wakes them. Where there are none,
// there is nothing to count.
fn count_until<R: Wait, G: Gate>(rt: &R, gate: &G, helpers: &Helpers, ended: &AtomicBool) {
    if !helpers.are_there() {
        return;
    }
    let mut looks = 0;
    for _ in rt.forever() {
        if helpers.count_some(gate) {
            looks = 0;
        } else if ended.load(SeqCst) {
            return;
        } else if looks < LOOKS {
            looks += 1;
            thread::yield_now();
        } else {
            helpers.wake();
            return;
        }
    }
    unreachable!()
}

// A round, and the puts of the round before, of which this is the board. One worker makes them one
// after the other, in this thread, so what it counts stays near; of several the round has a new
// thread, or comes last where none can be made.
fn round_beside<R: Threads + Wait + Sync, C: Source + Send, K: Station, G: Gate + Sync, H: PutHook>(
    run: &HelpedRun<'_, '_, R, G>,
    board: &Board,
    prepared: &mut Prepared<C>,
    lanes: &mut [Lane<C>],
    store: &mut Store,
    station: &mut K,
    behind: &mut Behind<H>,
) -> Result<(), Failed>
    requires usable { store.old.shut ≡ false }
    requires follows { Follows H.follows behind.old.hook store.old }
    requires config { IsConfig run.now.config.now }
    requires gauges { (length store.old.held ≡ length run.now.config.now.gauges)
        × (length lanes.old ≡ prepared.old.gauges)
        × (length board.now.rows ≡ length run.now.config.now.gauges) }
    requires setup { store.old.head.setup ≡ run.now.config.now.setup }
    requires fronts { AreFronts store.old.head.setup (ends_of store.old.held) board.now
        (length run.now.config.now.gauges) }
    requires lanes { AreReady lanes.old }
    requires on { K.tells → IsThere store.old (K.seen station.old) (K.leaves station.old) }
    ensures round { RoundDone C.tells C.left C.faults
        prepared.old prepared.new lanes.old lanes.new }
    ensures stores { Stores ⟦<K as Station>⟧ run.now.config.now board.now store.old store.new
        station.old station.new result }
    ensures follows { Follows H.follows behind.new.hook store.new }
{
    let (rt, gate, config) = (run.rt, run.gate, run.config);
    let Some(helpers) = run.helpers else {
        let stored = store_fronts(board, config, store, station, behind);
        prepared.round(rt, lanes, gate);
        return stored;
    };
    let ended = AtomicBool::new(false);
    let (_, stored) = join_mut(
        rt,
        &mut ||
            requires { IsSync R.row × IsSync G.row × IsSend C.row
                × (length lanes.now ≡ prepared.now.gauges) × AreReady lanes.now }
            ensures { RoundDone C.tells C.left C.faults
                prepared.entry.now prepared.exit.now lanes.entry.now lanes.exit.now }
        {
            prepared.round(rt, lanes, gate);
            ended.store(true, SeqCst);
        },
        &mut || {
            let stored = store_fronts(board, config, store, station, behind);
            count_until(rt, gate, helpers, &ended);
            stored
        },
    );
    stored
}

/// Rounds until each lane has ended, each with the puts and lines of the round before. `board` is
/// the one of the two boards that `prepared` does not have.
pub(crate) fn make_rounds<
    R: Threads + Wait + Sync,
    C: Source + Send,
    K: Station,
    G: Gate + Sync,
    H: PutHook,
>(
    run: &HelpedRun<'_, '_, R, G>,
    prepared: &mut Prepared<C>,
    board: Board,
    lanes: &mut [Lane<C>],
    store: &mut Store,
    station: &mut K,
    behind: &mut Behind<H>,
) -> Result<(), Failed>
    requires opened { AreOpenedLanes ⟦<C as Source>⟧ ⟦<K as Station>⟧ run.now.config.now store.old
        lanes.old station.old }
    requires rounds { AreRoundsFor run.now.config.now prepared.old board }
    requires follows { Follows H.follows behind.old.hook store.old }
    ensures made { RoundsMade ⟦<C as Source>⟧ ⟦<K as Station>⟧ run.now.config.now
        store.old store.new lanes.old lanes.new station.old station.new result }
    ensures follows { Follows H.follows behind.new.hook store.new }
{
    prepared.round(run.rt, lanes, run.gate);
    let mut board = prepared.exchange(board);
    for _ in run.rt.forever() {
        if have_ended(lanes) {
            return store_fronts(&board, run.config, store, station, behind);
        }
        round_beside(run, &board, prepared, lanes, store, station, behind)?;
        board = prepared.exchange(board);
    }
    unreachable!()
}
