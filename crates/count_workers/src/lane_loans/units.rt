ghost use Rattle.std.specs.Prelude.{◌≡◌, ◌+◌, ◌≤◌, vec_len, vec_capacity};
ghost use Rattle.std.specs.List.{All};
ghost use Rattle.board.specs.block_pool.Units.{IsBlank};
ghost use Rattle.board.specs.deposits.Deposited.{SamePool};
ghost use Rattle.board.specs.declared.flow.TheConstants.{BLOCKS_PER_WINDOW};

use board::block_pool::{Blank, Pool};
use board::flow::BLOCKS_PER_WINDOW;

// Lends a round's units to a lane.
pub(crate) fn lend_units(pool: &mut Pool, blanks: &mut Vec<Blank>)
    requires none { vec_len blanks.old ≡ 0 }
    requires room { BLOCKS_PER_WINDOW ≤ vec_capacity blanks.old }
    requires enough { BLOCKS_PER_WINDOW ≤ pool.old.inside }
    ensures pool { SamePool pool.old pool.new }
    ensures inside { pool.new.inside + BLOCKS_PER_WINDOW ≡ pool.old.inside }
    ensures blanks { (vec_len blanks.new ≡ BLOCKS_PER_WINDOW)
        × (vec_capacity blanks.new ≡ vec_capacity blanks.old) }
    ensures fit { All (IsBlank pool.old.block pool.old.grid) blanks.new.items }
{
    for _ in 0..BLOCKS_PER_WINDOW {
        let Some(unit) = pool.lend() else {
            unreachable!()
        };
        blanks.push_reserved(unit);
    }
}

// Gives back the units that a lane did not use.
pub(crate) fn give_units(pool: &mut Pool, blanks: &mut Vec<Blank>)
    requires fit { All (IsBlank pool.old.block pool.old.grid) blanks.old.items }
    requires room { pool.old.inside + vec_len blanks.old ≤ pool.old.units }
    ensures pool { SamePool pool.old pool.new }
    ensures inside { pool.new.inside ≡ pool.old.inside + vec_len blanks.old }
    ensures none { (vec_len blanks.new ≡ 0)
        × (vec_capacity blanks.new ≡ vec_capacity blanks.old) }
{
    for _ in 0..blanks.len() {
        let Some(unit) = blanks.pop() else {
            unreachable!()
        };
        pool.give(unit);
    }
}
