ghost use Rattle.std.specs.Prelude.{◌≡◌, ◌+◌, ◌≤◌, length, take, IfOk};
ghost use Rattle.calibration.specs.declared.limits.TheConstants.{MAX_SAMPLES};
ghost use Rattle.segment.specs.Segment.{Stands};
ghost use Rattle.segment.specs.Name.{name_of};

use crate::block_pool::{MAX_BLOCK, OutOfMemory};
use calibration::{Classifier, Gain, Grid};
use segment::Segment;
use segment::segment_rules::Name;
use std::alloc::Global;
use std::marker::Model;

/// A unit that waits for samples.
#[derive(Drop)]
pub struct Blank {
    buffer: Vec<i32>,
    levels: Vec<u16>,
    segment: Segment,
}

impl Model for Blank {
    ghost use Rattle.board.specs.block_pool.Units.{BlankValue};
    ghost use Rattle.std.specs.Prelude.{◌≡◌, vec_len};

    ghost Value = { BlankValue };

    ghost view = { λ u. record { buffer = u.buffer.items; grid = u.segment.grid } };

    ghost invariant = { λ u. (u.segment.longest ≡ vec_len u.buffer)
        × (vec_len u.levels ≡ vec_len u.buffer) };
}

/// A unit whose first samples were read.
#[derive(Drop)]
pub struct Filled {
    buffer: Vec<i32>,
    levels: Vec<u16>,
    segment: Segment,
    name: Name,
    gain: Gain,
}

impl Model for Filled {
    ghost use Rattle.board.specs.block_pool.Units.{FilledValue, IsFilled};
    ghost use Rattle.std.specs.Prelude.{◌≡◌, vec_len, take, ◌-◌};

    ghost Value = { FilledValue };

    ghost view = { λ u. record {
      block = vec_len u.buffer;
      grid = u.segment.grid;
      name = u.name;
      samples = take (u.name.to - u.name.from) u.buffer.items;
      gain = u.gain;
    } };

    ghost invariant = { λ u. (u.segment.longest ≡ vec_len u.buffer)
        × (vec_len u.levels ≡ vec_len u.buffer) × IsFilled (vec_len u.buffer) u.name };
}

/// A unit whose samples were counted: its segment stands for them.
#[derive(Drop)]
pub struct Counted {
    buffer: Vec<i32>,
    levels: Vec<u16>,
    segment: Segment,
    gain: Gain,
}

impl Model for Counted {
    ghost use Rattle.board.specs.block_pool.Units.{CountedValue, IsFilled};
    ghost use Rattle.segment.specs.Segment.{Stands};
    ghost use Rattle.segment.specs.Name.{name_of};
    ghost use Rattle.std.specs.Prelude.{◌≡◌, vec_len, take, ◌-◌};

    ghost Value = { CountedValue };

    ghost view = { λ u. record {
      block = vec_len u.buffer;
      grid = u.segment.grid;
      segment = u.segment;
      samples = take (u.segment.to - u.segment.from) u.buffer.items;
      gain = u.gain;
    } };

    ghost invariant = { λ u. (u.segment.longest ≡ vec_len u.buffer)
        × (vec_len u.levels ≡ vec_len u.buffer) × IsFilled (vec_len u.buffer) (name_of u.segment)
        × ∥ Stands u.segment u.gain (take (u.segment.to - u.segment.from) u.buffer.items) ∥₁ };
}

impl Blank {
    ghost use Rattle.board.specs.block_pool.Units.{BlankValue, FilledValue, IsBlank, buffer_after_loan};
    ghost use Rattle.std.specs.Borrow.{Lends, sem, Array, i32};
    ghost use Rattle.board.specs.contracts.block_pool.unit.Blank.{the_row};

    /// A blank with so many places. It takes all memory that it will need.
    pub(crate) fn new(alloc: Global, block: usize, grid: &Grid) -> Result<Blank, OutOfMemory>
        requires { (1 ≤ block) × (block ≤ MAX_BLOCK) }
        ensures { IfOk result (IsBlank block grid.now) }
    {
        Ok(Blank {
            buffer: vec![in alloc; 0; block]?,
            levels: vec![in alloc; 0; block]?,
            segment: Segment::new(alloc, grid, 0, 0, block as u64)?,
        })
    }

    /// The places for the samples of a block.
    pub fn buffer(&mut self) -> &mut [i32]
        ensures* writes_back { sem 𝓛 (Lends the_row (Array i32 0) self.entry result
            (λ w. record { buffer = buffer_after_loan self.old.buffer w; grid = self.old.grid })) }
        ensures value { result.now ≡ self.old.buffer }
        ensures long { length result.now ≡ length self.old.buffer }
    {
        self.buffer.as_mut_slice()
    }

    /// Says that the first `n` places hold the samples of `gauge` from `from` on, under `gain`.
    pub fn filled(self, gauge: u16, from: u64, n: usize, gain: Gain) -> Filled
        requires some { (1 ≤ n) × (n ≤ length self.buffer) }
        requires room { from + n ≤ MAX_SAMPLES }
        ensures { result ≡ record {
          block = length self.buffer;
          grid = self.grid;
          name = record { gauge = gauge; from = from; to = from + n };
          samples = take n self.buffer;
          gain = gain;
        } }
    {
        Filled {
            buffer: self.buffer,
            levels: self.levels,
            segment: self.segment,
            name: Name {
                gauge,
                from,
                to: from + n as u64,
            },
            gain,
        }
    }
}

impl Filled {
    ghost use Rattle.board.specs.block_pool.Units.{BlankValue, FilledValue, CountedValue, IsFilled, IsBlank, IsCountOf};

    /// Names its samples.
    pub fn name(&self) -> Name
        ensures name { result ≡ self.now.name }
        ensures limits { IsFilled self.now.block result }
        ensures long { result.from + length self.now.samples ≡ result.to }
    {
        self.name
    }

    /// Its samples.
    pub fn samples(&self) -> &[i32]
        ensures { result.now ≡ self.now.samples }
    {
        &self.buffer[..(self.name.to - self.name.from) as usize]
    }

    /// How many places it has.
    pub fn block(&self) -> usize
        ensures { result ≡ self.now.block }
    {
        self.buffer.len()
    }

    /// The classes that it is counted over.
    pub fn grid(&self) -> Grid
        ensures { result ≡ self.now.grid }
    {
        self.segment.grid()
    }

    /// What its raw values mean.
    pub fn gain(&self) -> Gain
        ensures { result ≡ self.now.gain }
    {
        self.gain
    }

    /// Counts its samples.
    pub fn count(self) -> Counted
        ensures { IsCountOf self result }
    {
        let mut segment = self.segment;
        let mut levels = self.levels;
        let n = (self.name.to - self.name.from) as usize;
        segment.clear(self.name.gauge, self.name.from);
        let classifier = Classifier::new(&self.gain, &segment.grid());
        segment.count_block(&self.buffer[..n], &classifier, levels.as_mut_slice());
        Counted {
            buffer: self.buffer,
            levels,
            segment,
            gain: self.gain,
        }
    }

    /// The unit without its samples.
    pub fn blank(self) -> Blank
        ensures { IsBlank self.block self.grid result }
    {
        Blank {
            buffer: self.buffer,
            levels: self.levels,
            segment: self.segment,
        }
    }
}

impl Counted {
    ghost use Rattle.board.specs.block_pool.Units.{BlankValue, CountedValue, IsFilled, IsBlank};

    /// The counts of its samples.
    pub fn segment(&self) -> &Segment
        ensures segment { result.now ≡ self.now.segment }
        ensures limits { IsFilled self.now.block (name_of result.now) }
        ensures stands { ∥ Stands result.now self.now.gain self.now.samples ∥₁ }
        ensures grid { result.now.grid ≡ self.now.grid }
    {
        &self.segment
    }

    /// Its samples.
    pub fn samples(&self) -> &[i32]
        ensures { result.now ≡ self.now.samples }
    {
        let name = self.segment.name();
        &self.buffer[..(name.to - name.from) as usize]
    }

    /// What its raw values mean.
    pub fn gain(&self) -> Gain
        ensures { result ≡ self.now.gain }
    {
        self.gain
    }

    /// How many places it has.
    pub fn block(&self) -> usize
        ensures { result ≡ self.now.block }
    {
        self.buffer.len()
    }

    /// The unit without its samples.
    pub fn blank(self) -> Blank
        ensures { IsBlank self.block self.grid result }
    {
        Blank {
            buffer: self.buffer,
            levels: self.levels,
            segment: self.segment,
        }
    }
}
