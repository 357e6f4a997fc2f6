ghost use Rattle.std.specs.Prelude.{◌≡◌, ◌<◌, ℕ, length, slice_index_or};
ghost use Rattle.count_workers.specs.collector.Settling.{ReturnAt, AllReturns, SameFeeding, IsStillAwaited, BackFifo};

use crate::block_workers::Worker;
use crate::collector::Return;

// Looks at both ends of one return ring.
fn settle_return(back: &mut Return, worker: &mut Worker)
    requires ring { ReturnAt worker.old back.old }
    ensures awaited { IsStillAwaited back.old back.new }
    ensures worker { SameFeeding worker.old worker.new }
    ensures fifo { BackFifo worker.old back.old }
{
    back.taker.settle(&mut worker.back);
    back.awaited = true;
}

/// Looks at both ends of each return ring, when nobody feeds or takes, and awaits the next round.
pub fn settle_returns(returns: &mut [Return], workers: &mut [Worker])
    requires long { length returns.old ≡ length workers.old }
    requires rings { AllReturns workers.old returns.old }
    ensures long { (length returns.new ≡ length returns.old)
        × (length workers.new ≡ length workers.old) }
    ensures returns { (v : ℕ) (d : _) → v < length returns.old
        → IsStillAwaited (slice_index_or returns.old v d) (slice_index_or returns.new v d) }
    ensures workers { (v : ℕ) (d : _) → v < length workers.old
        → SameFeeding (slice_index_or workers.old v d) (slice_index_or workers.new v d) }
    ensures fifo { (v : ℕ) (d : _) (e : _) → v < length workers.old
        → BackFifo (slice_index_or workers.old v d) (slice_index_or returns.old v e) }
{
    for v in 0..workers.len() {
        settle_return(&mut returns[v], &mut workers[v]);
    }
}
