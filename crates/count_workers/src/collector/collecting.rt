ghost use Rattle.std.specs.Prelude.{◌≡◌, ◌<◌, ℕ, length, slice_index_or, true, false};
ghost use Rattle.count_workers.specs.collector.Collecting.{AllAwaited, LooksAtRing, CollectsMore, CollectsRest, IsCollected};

use crate::block_workers::Back;
use crate::gauge_ring::Taker;
use board::Board;
use board::block_pool::{Counted, Pool};
use board::deposits::deposit_one;
use board::flow::BLOCKS_PER_WINDOW;
use std::sync::Wait;
use std::thread;

/// The end of a worker's return ring that is taken from.
#[derive(Drop)]
pub struct Return {
    /// The ring.
    pub taker: Taker<Back>,
    /// Whether the mark of this round is still to come.
    pub awaited: bool,
}

// Takes from a return ring while its mark is to come. A unit is deposited and given back, and the
// mark ends the round. Answers whether anything came.
fn look(board: &mut Board, pool: &mut Pool, back: &mut Return) -> bool
    requires grid { board.old.grid ≡ pool.old.grid }
    ensures { LooksAtRing board.old board.new pool.old pool.new back.old back.new }
{
    if !back.awaited {
        return false;
    }
    match back.taker.take() {
        None => false,
        Some(Back::Over) => {
            back.awaited = false;
            true
        }
        Some(Back::Unit(unit)) => {
            deposit_one(board, pool, unit);
            true
        }
    }
}

// Looks once at each return ring, in turn. Answers whether anything came.
fn look_at_all(board: &mut Board, pool: &mut Pool, returns: &mut [Return]) -> bool
    requires grid { board.old.grid ≡ pool.old.grid }
    ensures more { CollectsMore board.old board.new pool.old pool.new returns.old returns.new }
    ensures grid { board.new.grid ≡ pool.new.grid }
{
    let mut came = false;
    for v in 0..returns.len() {
        came |= look(board, pool, &mut returns[v]);
    }
    came
}

// The ring by which the next block comes, where each lane before it gave all blocks of a window.
fn next_ring(board: &Board, rings: usize) -> usize
    requires { 0 < rings }
    ensures { result < rings }
{
    board.arrivals().len() % BLOCKS_PER_WINDOW % rings
}

/// Looks at the return rings in the order in which their blocks were dealt, up to the first that
/// has nothing: a block that waits there for the one before it costs one join, and not two.
pub fn look_in_turn(board: &mut Board, pool: &mut Pool, returns: &mut [Return])
    requires grid { board.old.grid ≡ pool.old.grid }
    ensures more { CollectsMore board.old board.new pool.old pool.new returns.old returns.new }
    ensures grid { board.new.grid ≡ pool.new.grid }
{
    for _ in 0..returns.len() {
        let v = next_ring(board, returns.len());
        if !look(board, pool, &mut returns[v]) {
            return;
        }
    }
}

// Whether the mark of each ring was taken.
fn all_marked(returns: &[Return]) -> bool
    ensures { result ≡ true → (v : ℕ) (d : _) → v < length returns.now
        → (slice_index_or returns.now v d).awaited ≡ false }
{
    for v in 0..returns.len() {
        if returns[v].awaited {
            return false;
        }
    }
    true
}

/// Takes the return rings in turn until each one's mark, deposits each unit as it comes, and gives
/// it back to the pool.
pub fn collect<R: Wait>(rt: &R, board: &mut Board, pool: &mut Pool, returns: &mut [Return])
    requires grid { board.old.grid ≡ pool.old.grid }
    requires awaited { AllAwaited returns.old }
    ensures { IsCollected board.old board.new pool.old pool.new returns.old returns.new }
{
    collect_rest(rt, board, pool, returns);
}

/// The same of rings of which some was taken before. Yields after a turn in which nothing came.
pub fn collect_rest<R: Wait>(rt: &R, board: &mut Board, pool: &mut Pool, returns: &mut [Return])
    requires grid { board.old.grid ≡ pool.old.grid }
    ensures { CollectsRest board.old board.new pool.old pool.new returns.old returns.new }
{
    for _ in rt.forever() {
        if all_marked(returns) {
            return;
        }
        if !look_at_all(board, pool, returns) {
            thread::yield_now();
        }
    }
    unreachable!()
}
