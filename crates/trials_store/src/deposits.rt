ghost use Rattle.std.specs.Prelude.{◌≡◌, ◌≤◌, length};
ghost use Rattle.board.specs.deposits.Deposited.{SamePool};

use board::Board;
use board::block_pool::{Counted, Pool};
use board::deposits::deposit_one;
use calibration::{Gain, Grid};
use segment::segment_rules::Name;
use std::test::Fail;

// A unit of the pool with these samples of gauge 0, from a place on.
fn counted(pool: &mut Pool, from: u64, samples: &[i32]) -> Result<Counted, Fail>
    requires block { pool.old.block ≡ length samples.now }
    requires some { 1 ≤ length samples.now }
    requires few { length samples.now ≤ 4 }
    requires from { from ≤ 1000 }
    ensures { SamePool pool.old pool.new }
{
    let gain = Gain::new(1000, 1, 0)?;
    let mut blank = pool.lend().ok_or("a unit")?;
    blank.buffer().copy_from_slice(samples);
    Ok(blank.filled(0, from, samples.len(), gain).count())
}

fn name(from: u64, to: u64) -> Name {
    Name { gauge: 0, from, to }
}

// Two units of the pool; a unit of fewer places; one more than the pool has.
#[test]
fn units_of_the_pool_are_deposited_and_given_back(rt: HostRuntime) -> Result<(), Fail> {
    let grid = Grid::new(16, 2, -8000, 8)?;
    let mut pool = Pool::new(rt.alloc(), 2, 4, &grid)?;
    let mut short = Pool::new(rt.alloc(), 1, 2, &grid)?;
    let mut spare = Pool::new(rt.alloc(), 1, 4, &grid)?;
    let mut board = Board::new(rt.alloc(), 1, 4, &grid)?;
    let late = counted(&mut pool, 4, &[-1, 3, -4, 4])?;
    let early = counted(&mut pool, 0, &[-2, 1, -3, 5])?;
    deposit_one(&mut board, &mut pool, late);
    deposit_one(&mut board, &mut pool, counted(&mut short, 0, &[7, 7])?);
    deposit_one(&mut board, &mut pool, early);
    deposit_one(
        &mut board,
        &mut pool,
        counted(&mut spare, 8, &[7, 7, 7, 7])?,
    );
    assert_eq!(rt; board.arrivals(), [name(4, 8), name(0, 4)].as_slice());
    assert_eq!(rt; board.front(0).residue(), [6, 9, 5, 13, 4, 12].as_slice());
    assert_eq!(rt; (pool.inside(), short.inside(), spare.inside()), (2, 0, 0));
    Ok(())
}
