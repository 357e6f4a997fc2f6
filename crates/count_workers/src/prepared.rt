ghost use Rattle.std.specs.Prelude.{◌≡◌, ◌<◌, ◌*◌, ℕ, length, slice_index_or, IfOk};
ghost use Rattle.board.specs.Board.{IsFront};
ghost use Rattle.board.specs.declared.flow.TheConstants.{BLOCKS_PER_WINDOW};

use crate::block_workers::{Reader, Worker};
use crate::collector::{Depot, Return};
use crate::crew::Helpers;
use crate::gauge_ring::ring;
use crate::hiring::{dismiss_all, hire_all};
use crate::lane_loans::Lane;
use crate::preparing::{new_readers, new_worker};
use crate::round_making::make_round;
use crate::{OutOfMemory, Plan};
use board::Board;
use board::block_pool::Pool;
use board::flow::BLOCKS_PER_WINDOW;
use outside::{Gate, Source};
use segment::Segment;
use segment::segment_rules::Name;
use std::alloc::Global;
use std::marker::Model;
use std::sync::Wait;
use std::thread::Threads;

/// All memory of rounds: the units, the board, the rings, and the places of readers and workers.
#[derive(Drop)]
pub struct Prepared<C: Source> {
    depot: Depot,
    readers: Vec<Reader<C>>,
    workers: Vec<Worker>,
    returns: Vec<Return>,
}

impl<C: Source> Model for Prepared<C> {
    ghost use Rattle.count_workers.specs.round_making.Resting.{PreparedValue, IsResting, value_of};

    ghost Value = { PreparedValue };

    ghost view = { λ p. value_of p.depot.pool p.depot.board p.readers.items p.workers.items };

    ghost invariant = { λ p. IsResting p.depot.pool p.depot.board
        p.readers.items p.workers.items p.returns.items };
}

impl<C: Source + Send> Prepared<C> {
    ghost use Rattle.count_workers.specs.Plans.{IsPlan, IsNew};
    ghost use Rattle.count_workers.specs.round_making.Resting.{PreparedValue, IsSameBut};
    ghost use Rattle.count_workers.specs.lane_loans.Lent.{CanRound};
    ghost use Rattle.count_workers.specs.round_making.Round.{RoundDone, SourcesBack};

    /// Takes all memory of rounds: 16 units for each gauge, a ring for each gauge and worker, a
    /// return ring for each worker, and the board.
    pub fn new(alloc: Global, plan: &Plan) -> Result<Prepared<C>, OutOfMemory>
        requires { IsPlan plan.now }
        ensures { IfOk result (IsNew plan.now) }
    {
        let units = BLOCKS_PER_WINDOW * plan.gauges as usize;
        let count = plan.workers as usize;
        let pool = Pool::new(alloc, units, plan.block as usize, &plan.grid)?;
        let board = Board::new(alloc, plan.gauges, plan.block, &plan.grid)?;
        let mut readers = new_readers(alloc, plan)?;
        let mut workers = Vec::with_capacity(alloc, count)?;
        let mut returns = Vec::with_capacity(alloc, count)?;
        for number in 0..plan.workers {
            let (back, taker) = ring(alloc, units + 1)?;
            workers.push_reserved(new_worker(alloc, number, back, readers.as_mut_slice())?);
            returns.push_reserved(Return {
                taker,
                awaited: true,
            });
        }
        Ok(Prepared {
            depot: Depot { pool, board },
            readers,
            workers,
            returns,
        })
    }

    /// Gives each worker a helper, for as long as [`crate::crew::help_all`] has them count beside
    /// the rounds. Till then, and where memory runs out, the workers count for themselves.
    pub fn hire(&mut self, alloc: Global, plan: &Plan) -> Result<Helpers, OutOfMemory>
        requires { IsPlan plan.now }
        ensures { self.new ≡ self.old }
    {
        hire_all(alloc, plan, self.workers.as_mut_slice())
    }

    /// Takes the helpers away, which then end.
    pub fn dismiss(&mut self)
        ensures { self.new ≡ self.old }
    {
        dismiss_all(self.workers.as_mut_slice());
    }

    /// Reads up to 16 blocks of each lane that has not ended, and counts them. Each lane's `at` and
    /// `end` tell how far it was read and why no further, and its source is back in its place.
    /// Takes no memory; waits for the readers and workers that it starts.
    pub fn round<R: Threads + Wait + Sync, G: Gate + Sync>(
        &mut self,
        rt: &R,
        lanes: &mut [Lane<C>],
        gate: &G,
    )
        requires long { length lanes.old ≡ self.old.gauges }
        requires lanes { (g : ℕ) (d : _) → g < length lanes.old
            → CanRound g (slice_index_or lanes.old g d) }
        ensures done { RoundDone C.tells C.left C.faults self.old self.new lanes.old lanes.new }
        ensures sources { SourcesBack C.number lanes.old lanes.new }
    {
        make_round(
            rt,
            gate,
            &mut self.depot,
            self.readers.as_mut_slice(),
            self.workers.as_mut_slice(),
            self.returns.as_mut_slice(),
            lanes,
        );
    }

    /// What the last round counted: a front for each gauge.
    pub fn board(&self) -> &Board
        ensures { result.now ≡ self.now.board }
    {
        &self.depot.board
    }

    /// What stands for the samples that a gauge's lane gave in the last round. Where it gave none
    /// it is empty.
    pub fn front(&self, gauge: u16) -> &Segment
        requires { gauge < self.now.gauges }
        ensures { IsFront self.now.board gauge result.now }
    {
        self.depot.board.front(gauge)
    }

    /// The names of the last round's blocks, in order of arrival.
    pub fn arrivals(&self) -> &[Name]
        ensures { result.now ≡ self.now.board.arrivals }
    {
        self.depot.board.arrivals()
    }

    /// How many units are in the pool.
    pub fn inside(&self) -> usize
        ensures inside { result ≡ self.now.inside }
        ensures all { result ≡ BLOCKS_PER_WINDOW * self.now.gauges }
    {
        self.depot.pool.inside()
    }

    /// Hands out the board that the last round filled, and takes another for the next.
    pub fn exchange(&mut self, board: Board) -> Board
        requires { (board.grid ≡ self.old.grid) × (board.block ≡ self.old.block)
            × (length board.rows ≡ self.old.gauges) }
        ensures out { result ≡ self.old.board }
        ensures same { IsSameBut self.old self.new board }
    {
        std::mem::replace(&mut self.depot.board, board)
    }
}
