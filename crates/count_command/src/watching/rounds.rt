ghost use Rattle.std.specs.Prelude.{◌≡◌};
ghost use Rattle.std.specs.Thread.{IsSync, IsSend};
ghost use Rattle.segment_store.specs.Held.{ends_of};
ghost use Rattle.count_command.specs.held_samples.Hook.{Follows};
ghost use Rattle.count_command.specs.held_rounds.Made.{RoundsMade};
ghost use Rattle.count_command.specs.held_rounds.Ready.{AreOpened, AreOpenedLanes, AreRoundsToMake};
ghost use Rattle.count_command.specs.watching.Watching.{ShowsAtMost};

use crate::course::Run;
use crate::held_rounds::{RoundsToMake, count_rounds};
use crate::held_samples::{Behind, PutHook};
use crate::watching::bell::Bell;
use crate::watching::lookout::Lookout;
use crate::watching::put_shower::{OneView, PutShower};
use crate::watching::watch::{Watch, Watched};
use count_workers::lane_loans::Lane;
use outside::station::Station;
use outside::{Failed, Gate, Source};
use segment_store::Store;
use std::alloc::AllocGlobal;
use std::marker::{Brand, PhantomData};
use std::sync::Wait;
use std::thread::{Threads, join_mut};

// Who watches, and what wakes it.
#[derive(Drop)]
struct Looking<'a> {
    lookout: Lookout,
    bell: &'a Bell,
}

// Looks behind each ring, until the rounds are done.
fn look_beside<R: Wait>(rt: &R, looking: &mut Looking<'_>)
    ensures { looking.new.lookout ≡ looking.old.lookout }
{
    let bell = looking.bell;
    looking.lookout.watch(rt, bell);
}

// The rounds in this thread, and a watcher in a new one, or last where none can be made.
fn rounds_beside<
    R: Threads + Wait + Sync,
    C: Source + Send,
    K: Station,
    G: Gate + Sync,
    H: PutHook,
>(
    run: &Run<'_, R, G>,
    rounds: &mut RoundsToMake<C>,
    lanes: &mut [Lane<C>],
    store: &mut Store,
    station: &mut K,
    behind: &mut Behind<H>,
    looking: &mut Looking<'_>,
) -> Result<(), Failed>
    requires opened { AreOpenedLanes ⟦<C as Source>⟧ ⟦<K as Station>⟧ run.now.config.now store.old
        lanes.old station.old }
    requires rounds { AreRoundsToMake run.now.config.now rounds.old.prepared rounds.old.board }
    requires follows { Follows H.follows behind.old.hook store.old }
    ensures made { RoundsMade ⟦<C as Source>⟧ ⟦<K as Station>⟧ run.now.config.now
        store.old store.new lanes.old lanes.new station.old station.new result }
    ensures follows { Follows H.follows behind.new.hook store.new }
    ensures lookout { looking.new.lookout ≡ looking.old.lookout }
{
    let rt = run.rt;
    let (_, done) = join_mut(
        rt,
        &mut ||
            requires { IsSync R.row }
            ensures { looking.exit.now.lookout ≡ looking.entry.now.lookout }
        { look_beside(rt, looking) },
        &mut ||
            requires { IsSync R.row × IsSync G.row × IsSend C.row
                × AreOpened K.tells C.faults run.now.config.now store.now lanes.now
                (K.seen station.now) (K.leaves station.now)
                × AreRoundsToMake run.now.config.now rounds.now.prepared rounds.now.board
                × Follows H.follows behind.now.hook store.now }
        { count_rounds(run, rounds, lanes, store, station, behind) },
    );
    done
}

// The rounds over one live view, and its end.
fn rounds_watched<
    R: AllocGlobal + Threads + Wait + Sync,
    C: Source + Send,
    K: Station,
    G: Gate + Sync,
    V: OneView,
>(
    run: &Run<'_, R, G>,
    rounds: RoundsToMake<C>,
    lanes: &mut [Lane<C>],
    store: &mut Store,
    station: &mut K,
    watch: Watch,
) -> (Result<(), Failed>, Watched)
    requires opened { AreOpenedLanes ⟦<C as Source>⟧ ⟦<K as Station>⟧ run.now.config.now store.old
        lanes.old station.old }
    requires rounds { AreRoundsToMake run.now.config.now rounds.prepared rounds.board }
    requires shows { ShowsAtMost watch.shown store.old.head.setup.grid (ends_of store.old.held) }
    requires one { watch.of ≡ V.book }
    ensures made { RoundsMade ⟦<C as Source>⟧ ⟦<K as Station>⟧ run.now.config.now
        store.old store.new lanes.old lanes.new station.old station.new result.0 }
    ensures starts { result.1.ends ≡ watch.starts }
{
    let Watch {
        line,
        shower,
        lookout,
    } = watch;
    let bell = Bell::new();
    let mut rounds = rounds;
    let mut looking = Looking {
        lookout,
        bell: &bell,
    };
    let mut behind = Behind {
        line,
        hook: PutShower::<'_, R, V> {
            rt: run.rt,
            alloc: run.rt.alloc(),
            bell: &bell,
            shower,
            refused: false,
            of: PhantomData,
        },
    };
    let done = rounds_beside(
        run,
        &mut rounds,
        lanes,
        store,
        station,
        &mut behind,
        &mut looking,
    );
    let Behind { line, hook } = behind;
    let PutShower {
        rt: _rt,
        alloc: _alloc,
        bell: _bell,
        shower,
        refused,
        of: _of,
    } = hook;
    let Looking {
        lookout,
        bell: _rung,
    } = looking;
    let ends = lookout.end(run.rt, shower);
    (
        done,
        Watched {
            line,
            ends,
            refused,
        },
    )
}

/// The rounds of `count`, each put of which is shown, and a watcher on a thread of its own that
/// looks at what is shown until they are done. It then looks once more, and both ends of the live
/// view are ended. Where no thread can be made it looks that once alone.
pub fn watch_rounds<
    R: AllocGlobal + Threads + Wait + Sync,
    C: Source + Send,
    K: Station,
    G: Gate + Sync,
>(
    run: &Run<'_, R, G>,
    rounds: RoundsToMake<C>,
    lanes: &mut [Lane<C>],
    store: &mut Store,
    station: &mut K,
    watch: Watch,
) -> (Result<(), Failed>, Watched)
    requires opened { AreOpenedLanes ⟦<C as Source>⟧ ⟦<K as Station>⟧ run.now.config.now store.old
        lanes.old station.old }
    requires rounds { AreRoundsToMake run.now.config.now rounds.prepared rounds.board }
    requires shows { ShowsAtMost watch.shown store.old.head.setup.grid (ends_of store.old.held) }
    ensures made { RoundsMade ⟦<C as Source>⟧ ⟦<K as Station>⟧ run.now.config.now
        store.old store.new lanes.old lanes.new station.old station.new result.0 }
    ensures starts { result.1.ends ≡ watch.starts }
{
    rounds_watched::<R, C, K, G, Brand>(run, rounds, lanes, store, station, watch)
}
