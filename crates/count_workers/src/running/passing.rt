ghost use Rattle.std.specs.List.{All};
ghost use Rattle.count_workers.specs.block_workers.Working.{CanWork, WorksOn};
ghost use Rattle.count_workers.specs.running.Going.{AllWorkOn, CanGoOn, GoesOn};

use crate::block_workers::{Worker, fetch, is_helped, is_waiting, work_once};
use crate::collector::{Depot, Return, look_in_turn};
use outside::Gate;
use std::sync::Wait;
use std::thread;

// A worker that is alone, or whose helper has begun, takes what was fed, and feeds back what has come
// from the helper. Others begin when all lanes were read. Answers whether there was anything.
fn pass_to<R: Wait, G: Gate>(rt: &R, gate: &G, alone: bool, worker: &mut Worker) -> bool
    requires { CanWork worker.old }
    ensures { WorksOn worker.old worker.new }
{
    if !alone && !is_helped(worker) {
        return false;
    }
    let took = work_once(rt, gate, worker);
    let fetched = fetch(rt, worker);
    took | fetched
}

// Answers whether there was anything for any of them.
fn pass_to_all<R: Wait, G: Gate>(rt: &R, gate: &G, workers: &mut [Worker]) -> bool
    requires { All CanWork workers.old }
    ensures { AllWorkOn workers.old workers.new }
{
    let alone = workers.len() == 1;
    let mut came = false;
    for v in 0..workers.len() {
        came |= pass_to(rt, gate, alone, &mut workers[v]);
    }
    came
}

/// What follows each item that was fed: a worker that is alone, or whose helper has begun, takes it,
/// and what was fed back is placed. Answers whether there was anything to take or to feed back.
pub fn pass_on<R: Wait, G: Gate>(
    rt: &R,
    gate: &G,
    workers: &mut [Worker],
    depot: &mut Depot,
    returns: &mut [Return],
) -> bool
    requires { CanGoOn workers.old depot.old }
    ensures { GoesOn workers.old workers.new depot.old depot.new returns.old returns.new }
{
    let came = pass_to_all(rt, gate, workers);
    look_in_turn(&mut depot.board, &mut depot.pool, returns);
    came
}

// Whether a helper has a block.
fn are_waiting(workers: &[Worker]) -> bool {
    for worker in workers {
        if is_waiting(worker) {
            return true;
        }
    }
    false
}

/// What follows when all was fed: as long as helpers have blocks, what comes back is placed while
/// they count the rest.
pub fn pass_rest<R: Wait, G: Gate>(
    rt: &R,
    gate: &G,
    workers: &mut [Worker],
    depot: &mut Depot,
    returns: &mut [Return],
)
    requires { CanGoOn workers.old depot.old }
    ensures { GoesOn workers.old workers.new depot.old depot.new returns.old returns.new }
{
    for _ in rt.forever() {
        if !are_waiting(workers) {
            return;
        }
        if !pass_on(rt, gate, workers, depot, returns) {
            thread::yield_now();
        }
    }
    unreachable!()
}
