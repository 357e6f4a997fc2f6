ghost use Rattle.std.specs.Prelude.{◌<◌};

use crate::crew::Bell;
use crate::gauge_ring::{Feeder, Taker};
use board::block_pool::{Counted, Filled};
use calibration::MAX_WORKERS;
use outside::Gate;
use std::sync::{Arc, Mutex, Wait};
use std::thread;
use std::thread::{Threads, available_parallelism};

// How often a thread looks for blocks before it sleeps.
const LOOKS: u32 = 500;

/// A block that goes out over a line.
#[derive(Drop)]
pub(crate) struct Job {
    pub(crate) unit: Filled,
    /// Its number among the worker's blocks of its gauge, which the gate is told.
    pub(crate) number: u64,
}

/// What counts for one worker: the other end of its line.
#[derive(Drop)]
pub(crate) struct Helper {
    pub(crate) worker: u8,
    pub(crate) jobs: Taker<Job>,
    pub(crate) counts: Feeder<Counted>,
}

/// The helpers of all workers of a run. One thread at a time has a helper in hand, so that its
/// counts go back in order, and a thread that finds it in hand goes on to the next.
#[derive(Drop)]
pub struct Helpers {
    each: Vec<Mutex<Helper>>,
    bell: Arc<Bell>,
}

impl Helpers {
    pub(crate) fn new(each: Vec<Mutex<Helper>>, bell: Arc<Bell>) -> Helpers {
        Helpers { each, bell }
    }

    /// Whether a thread of theirs has begun. Before that they are given no blocks.
    pub fn are_there(&self) -> bool {
        self.bell.has_begun()
    }

    /// Passes the gate and counts a block of each worker that has one, where no other thread has
    /// its helper in hand. Answers whether there was any. Others pass over what this thread has in
    /// hand, so it calls again where there was, and wakes them when it leaves while blocks may come.
    pub fn count_some<G: Gate>(&self, gate: &G) -> bool {
        let mut counted = false;
        for helper in &self.each {
            counted |= count_one_of(gate, helper);
        }
        counted
    }

    /// Wakes the threads that sleep until there are blocks.
    pub fn wake(&self) {
        self.bell.ring();
    }
}

// Passes the gate and counts a block, where there is one. A count for which there is no place is let
// go: the worker has a place for each block that it gives. Answers whether there was one.
fn count_one<G: Gate>(gate: &G, helper: &mut Helper) -> bool {
    match helper.jobs.take() {
        Some(job) => {
            gate.pass(helper.worker, job.unit.name().gauge, job.number);
            let _ = helper.counts.feed(job.unit.count());
            true
        }
        None => false,
    }
}

// The same with a helper that nobody has in hand.
fn count_one_of<G: Gate>(gate: &G, helper: &Mutex<Helper>) -> bool {
    match helper.try_lock() {
        Some(mut helper) => count_one(gate, &mut helper),
        None => false,
    }
}

// Counts until the lines have ended. What was given before the end is counted.
fn help<R: Wait, G: Gate>(rt: &R, gate: &G, helpers: &Helpers) {
    let bell = &helpers.bell;
    bell.begin();
    let mut looks = 0;
    for _ in rt.forever() {
        let heard = bell.rings();
        let over = bell.is_over();
        if helpers.count_some(gate) {
            looks = 0;
        } else if over {
            return;
        } else if looks < LOOKS {
            looks += 1;
            thread::yield_now();
        } else {
            bell.sleep(rt, heard);
        }
    }
    unreachable!()
}

// So many threads: one processor is for the thread of the rounds, and one for that of the puts, which
// counts when it has made them. Two threads are the least, so that workers count beside each other on
// any machine.
fn threads_for(rt: &impl Threads) -> usize
    ensures { 0 < result }
{
    let processors = match available_parallelism(rt) {
        Ok(count) => count.get(),
        Err(_) => 1,
    };
    processors.saturating_sub(2).max(2)
}

/// Counts for all workers until their lines have ended, in two threads fewer than there are
/// processors, or in two; in no more than there are workers. The gate stands before each block.
pub fn help_all<R: Threads + Wait + Sync, G: Gate + Sync>(rt: &R, gate: &G, helpers: &Helpers) {
    let mut seats = [0u8; MAX_WORKERS as usize];
    let most = helpers.each.len().min(MAX_WORKERS as usize);
    let threads = threads_for(rt);
    thread::for_each_mut(
        rt,
        &mut seats[..threads.min(most)],
        threads,
        &|_, _| help(rt, gate, helpers),
    );
}
