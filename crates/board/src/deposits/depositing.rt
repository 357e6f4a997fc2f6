ghost use Rattle.std.specs.Prelude.{◌≡◌};
ghost use Rattle.board.specs.deposits.Deposited.{DepositsUnit};

use crate::Board;
use crate::block_pool::{Counted, Pool};

/// Deposits a unit of the pool's block and grid on the board, and gives it back to the pool, which
/// has room. A unit that does not fit the pool is dropped.
pub fn deposit_one(board: &mut Board, pool: &mut Pool, unit: Counted)
    requires grid { board.old.grid ≡ pool.old.grid }
    ensures { DepositsUnit board.old board.new pool.old pool.new unit }
{
    if pool.fits(&unit) {
        let _ = board.deposit(unit.segment());
        pool.give(unit.blank());
    }
}
