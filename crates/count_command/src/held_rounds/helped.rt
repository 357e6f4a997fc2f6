ghost use Rattle.std.specs.Prelude.{◌≡◌};
ghost use Rattle.std.specs.Thread.{IsSync, IsSend};
ghost use Rattle.count_command.specs.held_samples.Hook.{Follows};
ghost use Rattle.count_command.specs.held_rounds.Made.{RoundsMade};
ghost use Rattle.count_command.specs.held_rounds.Ready.{AreOpened, AreOpenedLanes, AreRoundsToMake};

use crate::course::Run;
use crate::held_rounds::RoundsToMake;
use crate::held_rounds::beside::{HelpedRun, make_rounds};
use crate::held_samples::{Behind, PutHook};
use board::Board;
use count_workers::Prepared;
use count_workers::crew::help_all;
use count_workers::lane_loans::Lane;
use outside::station::Station;
use outside::{Failed, Gate, Source};
use segment_store::Store;
use std::sync::Wait;
use std::thread::{Threads, join_mut};

// The rounds, and then the end of the helping and of what follows the puts.
fn rounds_and_end<
    R: Threads + Wait + Sync,
    C: Source + Send,
    K: Station,
    G: Gate + Sync,
    H: PutHook,
>(
    run: &HelpedRun<'_, '_, R, G>,
    prepared: &mut Prepared<C>,
    board: &mut Option<Board>,
    lanes: &mut [Lane<C>],
    store: &mut Store,
    station: &mut K,
    behind: &mut Behind<H>,
) -> Result<(), Failed>
    requires opened { AreOpenedLanes ⟦<C as Source>⟧ ⟦<K as Station>⟧ run.now.config.now store.old
        lanes.old station.old }
    requires rounds { AreRoundsToMake run.now.config.now prepared.old board.old }
    requires follows { Follows H.follows behind.old.hook store.old }
    ensures made { RoundsMade ⟦<C as Source>⟧ ⟦<K as Station>⟧ run.now.config.now
        store.old store.new lanes.old lanes.new station.old station.new result }
    ensures follows { Follows H.follows behind.new.hook store.new }
{
    let Some(board) = board.take() else {
        unreachable!()
    };
    let done = make_rounds(run, prepared, board, lanes, store, station, behind);
    prepared.dismiss();
    behind.hook.end();
    done
}

/// Rounds until each lane has ended, each with the puts and lines of the round before. A failure is
/// one of the station; the round beside it has run to its end. Helpers count beside all rounds, in
/// threads of their own, or where none can be made not at all.
pub fn count_rounds<
    R: Threads + Wait + Sync,
    C: Source + Send,
    K: Station,
    G: Gate + Sync,
    H: PutHook,
>(
    run: &Run<'_, R, G>,
    rounds: &mut RoundsToMake<C>,
    lanes: &mut [Lane<C>],
    store: &mut Store,
    station: &mut K,
    behind: &mut Behind<H>,
) -> Result<(), Failed>
    requires opened { AreOpenedLanes ⟦<C as Source>⟧ ⟦<K as Station>⟧ run.now.config.now store.old
        lanes.old station.old }
    requires rounds { AreRoundsToMake run.now.config.now rounds.old.prepared rounds.old.board }
    requires follows { Follows H.follows behind.old.hook store.old }
    ensures made { RoundsMade ⟦<C as Source>⟧ ⟦<K as Station>⟧ run.now.config.now
        store.old store.new lanes.old lanes.new station.old station.new result }
    ensures follows { Follows H.follows behind.new.hook store.new }
{
    let (rt, gate) = (run.rt, run.gate);
    let prepared = &mut rounds.prepared;
    let board = &mut rounds.board;
    let config = run.config;
    let Some(helpers) = &rounds.helpers else {
        let alone = HelpedRun {
            rt,
            gate,
            config,
            helpers: None,
        };
        return rounds_and_end(&alone, prepared, board, lanes, store, station, behind);
    };
    let some = Some(helpers);
    let run = HelpedRun {
        rt,
        gate,
        config,
        helpers: some,
    };
    let (_, done) = join_mut(
        rt,
        &mut ||
            requires { IsSync R.row × IsSync G.row }
        { help_all(rt, gate, helpers) },
        &mut ||
            requires { IsSync R.row × IsSync G.row × IsSend C.row
                × AreOpened K.tells C.faults run.config.now store.now lanes.now
                (K.seen station.now) (K.leaves station.now)
                × AreRoundsToMake run.config.now prepared.now board.now
                × Follows H.follows behind.now.hook store.now }
        { rounds_and_end(&run, prepared, board, lanes, store, station, behind) },
    );
    done
}
