ghost use Rattle.std.specs.Prelude.{◌≡◌};
ghost use Rattle.std.specs.List.{All};
ghost use Rattle.count_workers.specs.block_workers.Jobs.{CanRead, AllRead, SameSources};
ghost use Rattle.count_workers.specs.block_workers.Working.{CanWork, IsIdle, AllBegun, AllEnd, AllWorked};
ghost use Rattle.count_workers.specs.collector.Collecting.{AllAwaited, IsCollected};
ghost use Rattle.count_workers.specs.running.Going.{CanGoOn, Collects};

use crate::block_workers::{Reader, Worker, begin_work, end_work, is_helped};
use crate::collector::{Depot, Return, collect_rest};
use crate::running::lanes::run_readers;
use crate::running::passing::pass_rest;
use outside::{Gate, Source};
use std::sync::Wait;
use std::thread;
use std::thread::Threads;

// Each worker begins a round.
fn begin_all(workers: &mut [Worker])
    requires { All IsIdle workers.old }
    ensures { AllBegun workers.old workers.new }
{
    for v in 0..workers.len() {
        begin_work(&mut workers[v]);
    }
}

// Each worker goes on to the end of its round in this thread, one after another.
fn end_here<R: Wait, G: Gate>(rt: &R, gate: &G, workers: &mut [Worker])
    requires { All CanWork workers.old }
    ensures { AllEnd workers.old workers.new }
{
    for v in 0..workers.len() {
        end_work(rt, gate, &mut workers[v]);
    }
}

// Each worker goes on to the end of its round, on a thread of its own.
fn end_beside<R: Threads + Wait + Sync, G: Gate + Sync>(rt: &R, gate: &G, workers: &mut [Worker])
    requires { All CanWork workers.old }
    ensures { AllEnd workers.old workers.new }
{
    let threads = workers.len().max(1);
    thread::for_each_mut(
        rt,
        workers,
        threads,
        &|_, worker| end_work(rt, gate, worker),
    );
}

// Whether all have helpers that have begun.
fn are_helped(workers: &[Worker]) -> bool {
    for worker in workers {
        if !is_helped(worker) {
            return false;
        }
    }
    true
}

// Each worker goes on to the end of its round. Where helpers count, little is left to do.
fn end_all<R: Threads + Wait + Sync, G: Gate + Sync>(rt: &R, gate: &G, workers: &mut [Worker])
    requires { All CanWork workers.old }
    ensures { AllEnd workers.old workers.new }
{
    if are_helped(workers) {
        end_here(rt, gate, workers);
    } else {
        end_beside(rt, gate, workers);
    }
}

// The readers, then what helpers have, and then what is left for the workers.
fn run_all<R: Threads + Wait + Sync, C: Source, G: Gate + Sync>(
    rt: &R,
    gate: &G,
    depot: &mut Depot,
    returns: &mut [Return],
    workers: &mut [Worker],
    readers: &mut [Reader<C>],
)
    requires on { CanGoOn workers.old depot.old }
    requires read { All CanRead readers.old }
    ensures collects { Collects depot.old depot.new returns.old returns.new }
    ensures readers { AllRead C.tells C.left C.faults readers.old readers.new }
    ensures sources { SameSources C.number readers.old readers.new }
    ensures workers { AllEnd workers.old workers.new }
    ensures grid { depot.new.board.grid ≡ depot.new.pool.grid }
{
    run_readers(rt, gate, readers, workers, depot, returns);
    pass_rest(rt, gate, workers, depot, returns);
    end_all(rt, gate, workers);
}

/// A round. Each ring has room for all of it, so the reading waits for no worker.
pub fn run_round<R: Threads + Wait + Sync, C: Source + Send, G: Gate + Sync>(
    rt: &R,
    gate: &G,
    depot: &mut Depot,
    returns: &mut [Return],
    workers: &mut [Worker],
    readers: &mut [Reader<C>],
)
    requires grid { depot.old.board.grid ≡ depot.old.pool.grid }
    requires awaited { AllAwaited returns.old }
    requires read { All CanRead readers.old }
    requires work { All CanWork workers.old }
    requires idle { All IsIdle workers.old }
    ensures collected { IsCollected depot.old.board depot.new.board depot.old.pool depot.new.pool
        returns.old returns.new }
    ensures readers { AllRead C.tells C.left C.faults readers.old readers.new }
    ensures sources { SameSources C.number readers.old readers.new }
    ensures workers { AllWorked workers.old workers.new }
{
    begin_all(workers);
    run_all(rt, gate, depot, returns, workers, readers);
    collect_rest(rt, &mut depot.board, &mut depot.pool, returns);
}
