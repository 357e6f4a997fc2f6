ghost use Rattle.std.specs.Prelude.{◌≡◌, ◌<◌, ℕ, length, slice_index_or};
ghost use Rattle.count_workers.specs.round_making.Resting.{IsResting, value_of};
ghost use Rattle.count_workers.specs.lane_loans.Lent.{CanRound};
ghost use Rattle.count_workers.specs.round_making.Round.{RoundDone, SourcesBack};

use crate::block_workers::{Reader, Worker, settle_all};
use crate::collector::{Depot, Return, settle_returns};
use crate::lane_loans::{Lane, begin_windows, lend_lanes, return_lanes};
use crate::running::run_round;
use outside::{Gate, Source};
use std::sync::Wait;
use std::thread::Threads;

/// A round over its parts, which are at rest before it and after it.
pub fn make_round<R: Threads + Wait + Sync, C: Source + Send, G: Gate + Sync>(
    rt: &R,
    gate: &G,
    depot: &mut Depot,
    readers: &mut [Reader<C>],
    workers: &mut [Worker],
    returns: &mut [Return],
    lanes: &mut [Lane<C>],
)
    requires resting { IsResting depot.old.pool depot.old.board
        readers.old workers.old returns.old }
    requires long { length lanes.old ≡ length readers.old }
    requires lanes { (g : ℕ) (d : _) → g < length lanes.old
        → CanRound g (slice_index_or lanes.old g d) }
    ensures resting { IsResting depot.new.pool depot.new.board
        readers.new workers.new returns.new }
    ensures done { RoundDone C.tells C.left C.faults
        (value_of depot.old.pool depot.old.board readers.old workers.old)
        (value_of depot.new.pool depot.new.board readers.new workers.new)
        lanes.old lanes.new }
    ensures sources { SourcesBack C.number lanes.old lanes.new }
{
    begin_windows(&mut depot.board, lanes);
    lend_lanes(readers, lanes, &mut depot.pool);
    run_round(rt, gate, depot, returns, workers, readers);
    settle_all(workers, readers);
    settle_returns(returns, workers);
    return_lanes(readers, lanes, &mut depot.pool);
}
