ghost use Rattle.std.specs.Prelude.{◌≡◌, [], ◌∷◌, false, OnOk, IfErr};
ghost use Rattle.count_workers.specs.block_workers.Working.{CanWork, HandsOver, IsIdle, WorkedSoFar, WorksOn, EndsWork};

use crate::block_workers::waits::feed_waiting;
use crate::block_workers::{Back, Item};
use crate::crew::Line;
use crate::gauge_ring::{Feeder, Taker};
use board::block_pool::Filled;
use outside::Gate;
use std::sync::Wait;
use std::thread;

/// What a worker has: the ends of its gauges' rings, the end of its return ring, and where it is.
#[derive(Drop)]
pub struct Worker {
    /// Its number, from 0.
    pub number: u8,
    /// The ring of each gauge.
    pub takers: Vec<Taker<Item>>,
    /// Its return ring.
    pub back: Feeder<Back>,
    /// The gauge whose ring it takes from.
    pub gauge: usize,
    /// How many blocks of this gauge it has counted in this round.
    pub block: u64,
    /// The line to its helper, where it has one.
    pub line: Option<Line>,
}

/// Begins a round at the first ring.
pub fn begin_work(worker: &mut Worker)
    requires { IsIdle worker.old }
    ensures { WorkedSoFar worker.old worker.new }
{
    worker.gauge = 0;
    worker.block = 0;
}

/// Whether its helper has a block.
pub fn is_waiting(worker: &Worker) -> bool
    ensures { result ≡ false → IsIdle worker.now }
{
    match &worker.line {
        Some(line) => line.is_waiting(),
        None => false,
    }
}

/// Whether its helper has begun.
pub fn is_helped(worker: &Worker) -> bool {
    match &worker.line {
        Some(line) => line.is_attended(),
        None => false,
    }
}

// Hands a block of this number to its helper, or gives it back.
fn offer(worker: &mut Worker, filled: Filled, number: u64) -> Result<(), Filled>
    ensures handed { OnOk result (HandsOver worker.old worker.new (filled ∷ [])) }
    ensures given { IfErr result (λ given. given ≡ filled) }
    ensures same { IfErr result (λ given. HandsOver worker.old worker.new []) }
{
    match &mut worker.line {
        Some(line) => line.offer(filled, number),
        None => Err(filled),
    }
}

/// Feeds back what has come from its helper. Answers whether anything has.
pub fn fetch<R: Wait>(rt: &R, worker: &mut Worker) -> bool
    ensures { HandsOver worker.old worker.new [] }
{
    let Some(line) = &mut worker.line else {
        return false;
    };
    let Some(unit) = line.take_back() else {
        return false;
    };
    feed_waiting(rt, &mut worker.back, Back::Unit(unit));
    true
}

// Has a block counted by its helper, or counts it where the helper takes none and has none: what is
// fed back is in the order in which it was taken. Whoever counts it passes the gate before.
fn hand_over<R: Wait, G: Gate>(rt: &R, gate: &G, worker: &mut Worker, filled: Filled)
    ensures { HandsOver worker.old worker.new (filled ∷ []) }
{
    let mut filled = filled;
    let number = worker.block;
    worker.block = number.saturating_add(1);
    for _ in rt.forever() {
        match offer(worker, filled, number) {
            Ok(()) => return,
            Err(given) => filled = given,
        }
        if !is_waiting(worker) {
            gate.pass(worker.number, filled.name().gauge, number);
            feed_waiting(rt, &mut worker.back, Back::Unit(filled.count()));
            return;
        }
        if !fetch(rt, worker) {
            thread::yield_now();
        }
    }
    unreachable!()
}

// Feeds back all that its helper has.
fn fetch_all<R: Wait>(rt: &R, worker: &mut Worker)
    ensures came { HandsOver worker.old worker.new [] }
    ensures idle { IsIdle worker.new }
{
    for _ in rt.forever() {
        if !is_waiting(worker) {
            return;
        }
        if !fetch(rt, worker) {
            thread::yield_now();
        }
    }
    unreachable!()
}

/// Takes the next item of the ring that the worker is at. A block is counted and fed back, or
/// handed to the worker's helper; the mark leads to the next ring. Answers whether anything came.
pub fn work_once<R: Wait, G: Gate>(rt: &R, gate: &G, worker: &mut Worker) -> bool
    requires { CanWork worker.old }
    ensures { WorksOn worker.old worker.new }
{
    let gauge = worker.gauge;
    if gauge >= worker.takers.len() {
        return false;
    }
    match worker.takers[gauge].take() {
        None => false,
        Some(Item::Mark) => {
            worker.gauge += 1;
            worker.block = 0;
            true
        }
        Some(Item::Block(filled)) => {
            hand_over(rt, gate, worker, filled);
            true
        }
    }
}

/// Takes what is still to come, each ring to its mark and one after another, and ends the round of
/// the return ring by a mark, behind all that the helper has. Yields where nothing came.
pub fn end_work<R: Wait, G: Gate>(rt: &R, gate: &G, worker: &mut Worker)
    requires { CanWork worker.old }
    ensures { EndsWork worker.old worker.new }
{
    for _ in rt.forever() {
        if worker.gauge >= worker.takers.len() {
            fetch_all(rt, worker);
            feed_waiting(rt, &mut worker.back, Back::Over);
            return;
        }
        if !work_once(rt, gate, worker) {
            thread::yield_now();
        }
    }
    unreachable!()
}
