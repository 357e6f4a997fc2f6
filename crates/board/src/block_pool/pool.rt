ghost use Rattle.std.specs.Prelude.{◌≡◌, ◌+◌, ◌-◌, ◌<◌, ◌≤◌, ◌↔◌, IfOk, IfSome, IsNone, IsTrue};

use crate::block_pool::{Blank, Counted, MAX_BLOCK, MAX_UNITS, OutOfMemory};
use calibration::Grid;
use std::alloc::Global;
use std::marker::Model;

/// Units of one block and grid.
#[derive(Drop)]
pub struct Pool {
    free: Vec<Blank>,
    units: usize,
    block: usize,
    grid: Grid,
}

impl Model for Pool {
    ghost use Rattle.board.specs.block_pool.Units.{PoolValue, BlankValue, IsBlank};
    ghost use Rattle.std.specs.Prelude.{vec_len, vec_capacity, ◌≤◌, All};

    ghost Value = { PoolValue };

    ghost view = { λ p. record {
      units = p.units;
      block = p.block;
      grid = p.grid;
      inside = vec_len p.free;
    } };

    ghost invariant = { λ p. (p.units ≤ vec_capacity p.free) × (vec_len p.free ≤ p.units)
        × All (IsBlank p.block p.grid) p.free.items };
}

impl Pool {
    ghost use Rattle.board.specs.block_pool.Units.{PoolValue, BlankValue, IsBlank};

    /// A pool of so many blank units, each with `block` places. It takes all memory of the units.
    pub fn new(alloc: Global, units: usize, block: usize, grid: &Grid) -> Result<Pool, OutOfMemory>
        requires units { units ≤ MAX_UNITS }
        requires block { (1 ≤ block) × (block ≤ MAX_BLOCK) }
        ensures { IfOk result (λ p. p ≡
            record { units = units; block = block; grid = grid.now; inside = units }) }
    {
        let mut free = Vec::with_capacity(alloc, units)?;
        for _ in 0..units {
            free.push_reserved(Blank::new(alloc, block, grid)?);
        }
        Ok(Pool {
            free,
            units,
            block,
            grid: *grid,
        })
    }

    /// How many units are not lent.
    pub fn inside(&self) -> usize
        ensures inside { result ≡ self.now.inside }
        ensures most { result ≤ self.now.units }
    {
        self.free.len()
    }

    /// Lends a unit; none exactly where none is inside.
    pub fn lend(&mut self) -> Option<Blank>
        ensures none { IsNone result ↔ (self.old.inside ≡ 0) }
        ensures unit { IfSome result (IsBlank self.old.block self.old.grid) }
        ensures pool { self.new ≡ record self.old { inside = self.old.inside - 1 } }
    {
        self.free.pop()
    }

    /// Takes a unit back.
    pub fn give(&mut self, unit: Blank)
        requires room { self.old.inside < self.old.units }
        requires fits { IsBlank self.old.block self.old.grid unit }
        ensures { self.new ≡ record self.old { inside = self.old.inside + 1 } }
    {
        self.free.push_reserved(unit);
    }

    /// Whether the unit may be given, once it is blank.
    pub fn fits(&self, unit: &Counted) -> bool
        ensures { IsTrue result ↔ ((unit.now.block ≡ self.now.block)
            × (unit.now.grid ≡ self.now.grid) × (self.now.inside < self.now.units)) }
    {
        unit.block() == self.block
            && unit.segment().grid() == self.grid
            && self.free.len() < self.units
    }
}
