ghost use Rattle.std.specs.Prelude.{◌≡◌, ◌≤◌, length};
ghost use Rattle.board.specs.deposits.Deposited.{SamePool};

use board::Board;
use board::block_pool::{Counted, Pool};
use calibration::{Gain, Grid};
use count_workers::block_workers::Back;
use count_workers::collector::{Return, collect};
use count_workers::gauge_ring::ring;
use segment::segment_rules::Name;
use std::test::Fail;

// A unit of the pool with these samples of gauge 0, from a place on.
fn counted(pool: &mut Pool, from: u64, samples: &[i32]) -> Result<Counted, Fail>
    requires block { pool.old.block ≡ length samples.now }
    requires some { 1 ≤ length samples.now }
    requires few { length samples.now ≤ 4 }
    requires from { from ≤ 1000 }
    ensures { SamePool pool.old pool.new }
{
    let gain = Gain::new(1000, 1, 0)?;
    let mut blank = pool.lend().ok_or("a unit")?;
    blank.buffer().copy_from_slice(samples);
    Ok(blank.filled(0, from, samples.len(), gain).count())
}

fn name(from: u64, to: u64) -> Name {
    Name { gauge: 0, from, to }
}

// What a worker fed before anybody took: two units and the mark, and a unit of the next round.
#[test]
fn a_ring_is_taken_as_far_as_its_mark(rt: HostRuntime) -> Result<(), Fail> {
    let grid = Grid::new(16, 2, -8000, 8)?;
    let mut pool = Pool::new(rt.alloc(), 3, 4, &grid)?;
    let mut board = Board::new(rt.alloc(), 1, 4, &grid)?;
    let (mut back, taker) = ring(rt.alloc(), 4)?;
    let late = counted(&mut pool, 4, &[-1, 3, -4, 4])?;
    let early = counted(&mut pool, 0, &[-2, 1, -3, 5])?;
    let next = counted(&mut pool, 8, &[7, 7, 7, 7])?;
    assert!(rt; back.feed(Back::Unit(late)).is_ok());
    assert!(rt; back.feed(Back::Unit(early)).is_ok());
    assert!(rt; back.feed(Back::Over).is_ok());
    assert!(rt; back.feed(Back::Unit(next)).is_ok());
    let mut returns = [Return {
        taker,
        awaited: true,
    }];
    collect(&rt, &mut board, &mut pool, &mut returns);
    assert_eq!(rt; board.arrivals(), [name(4, 8), name(0, 4)].as_slice());
    assert_eq!(rt; board.front(0).residue(), [6, 9, 5, 13, 4, 12].as_slice());
    assert_eq!(rt; pool.inside(), 2);
    assert!(rt; !returns[0].awaited);
    Ok(())
}
