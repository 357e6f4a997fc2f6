ghost use Rattle.std.specs.Prelude.{◌≡◌, ◌≤◌, ◌↔◌, IfOk, IsTrue, length, take};
ghost use Rattle.board.specs.declared.block_pool.TheConstants.{MAX_BLOCK};

use crate::block_pool::{Counted, Filled, OutOfMemory};
use calibration::{Gain, Grid};
use segment::segment_rules::Name;
use std::alloc::Global;
use std::marker::Model;

/// What a unit held that was handed to another thread, so that its count is known when it comes
/// back.
#[derive(Drop)]
pub struct Receipt {
    buffer: Vec<i32>,
    grid: Grid,
    name: Name,
    gain: Gain,
}

impl Model for Receipt {
    ghost use Rattle.board.specs.block_pool.Units.{FilledValue, IsFilled};
    ghost use Rattle.std.specs.Prelude.{vec_len, take, ◌-◌};

    ghost Value = { FilledValue };

    ghost view = { λ r. record {
      block = vec_len r.buffer;
      grid = r.grid;
      name = r.name;
      samples = take (r.name.to - r.name.from) r.buffer.items;
      gain = r.gain;
    } };

    ghost invariant = { λ r. IsFilled (vec_len r.buffer) r.name };
}

// Writes the samples over the front of a buffer.
fn write_front(buffer: &mut [i32], samples: &[i32])
    requires { length samples.now ≤ length buffer.old }
    ensures front { take (length samples.now) buffer.new ≡ samples.now }
    ensures long { length buffer.new ≡ length buffer.old }
{
    buffer[..samples.len()].copy_from_slice(samples);
}

fn are_samples(a: &[i32], b: &[i32]) -> bool
    ensures { IsTrue result ↔ (a.now ≡ b.now) }
{
    a == b
}

impl Receipt {
    ghost use Rattle.board.specs.block_pool.Units.{FilledValue, IsCountOf};

    /// A receipt with room for the samples of a block, which holds nothing of use.
    pub fn new(alloc: Global, block: usize, grid: &Grid) -> Result<Receipt, OutOfMemory>
        requires { (1 ≤ block) × (block ≤ MAX_BLOCK) }
        ensures { IfOk result (λ r. r.block ≡ block) }
    {
        let Ok(gain) = Gain::new(1, 1, 0) else {
            unreachable!()
        };
        Ok(Receipt {
            buffer: vec![in alloc; 0; block]?,
            grid: *grid,
            name: Name {
                gauge: 0,
                from: 0,
                to: 1,
            },
            gain,
        })
    }

    /// Keeps what a unit holds, where the unit has as many places. Answers whether it has.
    pub fn keep(&mut self, unit: &Filled) -> bool
        ensures fits { IsTrue result ↔ (unit.now.block ≡ self.old.block) }
        ensures kept { IsTrue result → self.new ≡ unit.now }
    {
        if unit.block() != self.buffer.len() {
            return false;
        }
        let name = unit.name();
        write_front(self.buffer.as_mut_slice(), unit.samples());
        self.grid = unit.grid();
        self.name = name;
        self.gain = unit.gain();
        true
    }

    /// Whether a unit is the count of what was kept.
    pub fn is_of(&self, unit: &Counted) -> bool
        ensures { IsTrue result ↔ IsCountOf self.now unit.now }
    {
        let segment = unit.segment();
        if unit.block() != self.buffer.len() || segment.grid() != self.grid {
            return false;
        }
        if segment.name() != self.name || unit.gain() != self.gain {
            return false;
        }
        are_samples(
            unit.samples(),
            &self.buffer[..(self.name.to - self.name.from) as usize],
        )
    }
}
