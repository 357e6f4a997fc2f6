ghost use Rattle.std.specs.Prelude.{◌≡◌, ◌≤◌, [], ◌∷◌, ◌++◌, IfOk, IfErr, IfSome, IfNone, OnOk, true, false};
ghost use Rattle.board.specs.declared.block_pool.TheConstants.{MAX_BLOCK};
ghost use Rattle.count_workers.specs.crew.Lines.{TakesBack};

use crate::OutOfMemory;
use crate::crew::{Bell, Helper, Job};
use crate::gauge_ring::{Feeder, Taker, ring};
use board::block_pool::{Counted, Filled, Receipt};
use calibration::Grid;
use std::alloc::Global;
use std::collections::VecDeque;
use std::marker::Model;
use std::sync::Arc;

// The most blocks that are under way.
const MOST_WAITING: usize = 16;

/// The worker's end of a line: blocks go out, and come back counted in the same order.
#[derive(Drop)]
pub struct Line {
    jobs: Feeder<Job>,
    counts: Taker<Counted>,
    bell: Arc<Bell>,
    waiting: VecDeque<Receipt>,
    spare: Vec<Receipt>,
}

impl Model for Line {
    ghost use Rattle.count_workers.specs.crew.Lines.{LineValue};

    ghost Value = { LineValue };

    ghost view = { λ l. record { waiting = l.waiting.items } };
}

/// The two ends of a worker's line for blocks of so many samples over a grid.
pub(crate) fn new_line(
    alloc: Global,
    worker: u8,
    block: usize,
    grid: &Grid,
    bell: &Arc<Bell>,
) -> Result<(Line, Helper), OutOfMemory>
    requires { (1 ≤ block) × (block ≤ MAX_BLOCK) }
    ensures { IfOk result (λ ends. ends.0.waiting ≡ []) }
{
    let (jobs, helper_jobs) = ring(alloc, MOST_WAITING)?;
    let (helper_counts, counts) = ring(alloc, MOST_WAITING)?;
    let mut spare = Vec::with_capacity(alloc, MOST_WAITING)?;
    for _ in 0..MOST_WAITING {
        spare.push(Receipt::new(alloc, block, grid)?)?;
    }
    let helper = Helper {
        worker,
        jobs: helper_jobs,
        counts: helper_counts,
    };
    let line = Line {
        jobs,
        counts,
        bell: bell.clone()?,
        waiting: VecDeque::with_capacity(alloc, MOST_WAITING)?,
        spare,
    };
    Ok((line, helper))
}

// Keeps a receipt for another block. There is room for all of a line.
fn put_by(spare: &mut Vec<Receipt>, receipt: Option<Receipt>) {
    if let Some(receipt) = receipt {
        let _ = spare.push(receipt);
    }
}

impl Line {
    ghost use Rattle.count_workers.specs.crew.Lines.{LineValue};

    // Keeps a receipt of a unit, where there is one to spare.
    fn keep(&mut self, unit: &Filled) -> bool
        ensures kept { result ≡ true → self.new.waiting ≡ self.old.waiting ++ unit.now ∷ [] }
        ensures same { result ≡ false → self.new.waiting ≡ self.old.waiting }
    {
        let Some(mut receipt) = self.spare.pop() else {
            return false;
        };
        if !receipt.keep(unit) {
            put_by(&mut self.spare, Some(receipt));
            return false;
        }
        self.waiting.push_back(receipt).is_ok()
    }

    /// Whether helpers have begun.
    pub fn is_attended(&self) -> bool {
        self.bell.has_begun()
    }

    /// Hands a block of this number out, or gives it back: where no helper has begun, or too many
    /// are under way.
    pub fn offer(&mut self, unit: Filled, number: u64) -> Result<(), Filled>
        ensures handed { OnOk result (self.new.waiting ≡ self.old.waiting ++ unit ∷ []) }
        ensures given { IfErr result (λ given. given ≡ unit) }
        ensures same { IfErr result (λ given. self.new.waiting ≡ self.old.waiting) }
    {
        if !self.is_attended() || !self.keep(&unit) {
            return Err(unit);
        }
        match self.jobs.feed(Job { unit, number }) {
            Ok(()) => {
                self.bell.ring();
                Ok(())
            }
            Err(given) => {
                put_by(&mut self.spare, self.waiting.pop_back());
                Err(given.unit)
            }
        }
    }

    /// Takes the count of the oldest block that is under way, or none.
    pub fn take_back(&mut self) -> Option<Counted>
        ensures some { IfSome result (λ unit. TakesBack self.old.waiting self.new.waiting unit) }
        ensures none { IfNone result (self.new.waiting ≡ self.old.waiting) }
    {
        let unit = self.counts.take()?;
        let oldest = self.waiting.front()?;
        if !oldest.is_of(&unit) {
            return None;
        }
        put_by(&mut self.spare, self.waiting.pop_front());
        Some(unit)
    }

    /// Whether a block is under way.
    pub fn is_waiting(&self) -> bool
        ensures { result ≡ false → self.now.waiting ≡ [] }
    {
        !self.waiting.is_empty()
    }

    /// No more blocks will be handed out.
    pub fn end(&self) {
        self.bell.end();
    }
}
