use std::alloc::{AllocError, Global};
use std::process::Abort;
use tally::{Cell, Tally, room_for};

const EMPTY: Cell = Cell { lo: 0, hi: 0, n: 0 };

/// The room of every pair of 1024 classes.
const GREATEST: u32 = 523_776;

// A tally with cells that were counted one after another.
fn counted(rt: &impl Abort, alloc: Global, room: u32, cells: &[Cell]) -> Result<Tally, AllocError> {
    assert!(rt; room <= GREATEST);
    let mut tally = Tally::new(alloc, 1024, room)?;
    for cell in cells {
        assert!(rt; cell.lo < cell.hi && cell.hi < tally.classes());
        assert!(rt; tally.total() < 1000 && cell.n < 1000);
        assert!(rt; tally.cells() < tally.room());
        tally.add(cell.lo, cell.hi, cell.n);
    }
    Ok(tally)
}

// Expected values by hand: counts of pairs are added, in the order of the lower level and then of
// the higher one.
#[test]
fn cells_come_in_order(rt: HostRuntime) -> Result<(), AllocError> {
    let mut tally = Tally::new(rt.alloc(), 16, 2)?;
    assert_eq!(rt; tally.next(0, 0), None);
    tally.add(1, 2, 1);
    tally.add(3, 4, 5);
    tally.add(1, 2, 2);
    tally.add(0, 15, 0);
    assert_eq!(rt; tally.cells(), 2);
    assert_eq!(rt; tally.room(), 2);
    assert_eq!(rt; tally.get(1, 2), 3);
    assert_eq!(rt; tally.get(2, 1), 0);
    assert_eq!(rt; tally.total(), 8);
    assert_eq!(rt; tally.next(0, 0), Some(Cell { lo: 1, hi: 2, n: 3 }));
    assert_eq!(rt; tally.next(1, 3), Some(Cell { lo: 3, hi: 4, n: 5 }));
    assert_eq!(rt; tally.next(3, 5), None);
    let mut row = [9; 14];
    tally.write_row(1, &mut row);
    assert_eq!(rt; row, [3, 0, 0, 0, 0, 0, 0, 0, 0, 0, 0, 0, 0, 0]);
    Ok(())
}

const LEFT: &[Cell] = &[
    Cell {
        lo: 1022,
        hi: 1023,
        n: 7,
    },
    Cell { lo: 0, hi: 1, n: 1 },
];

const RIGHT: &[Cell] = &[
    Cell {
        lo: 1022,
        hi: 1023,
        n: 2,
    },
    Cell {
        lo: 0,
        hi: 1023,
        n: 3,
    },
];

const BOTH: [Cell; 3] = [
    Cell { lo: 0, hi: 1, n: 1 },
    Cell {
        lo: 0,
        hi: 1023,
        n: 3,
    },
    Cell {
        lo: 1022,
        hi: 1023,
        n: 9,
    },
];

// The corners of the classes in each layout, and each layout merged into each.
#[test]
fn tallies_merge_and_clear(rt: HostRuntime) -> Result<(), AllocError> {
    for (left_room, right_room) in [(GREATEST, GREATEST), (GREATEST, 2), (4, GREATEST), (4, 2)] {
        let mut left = counted(&rt, rt.alloc(), left_room, LEFT)?;
        let right = counted(&rt, rt.alloc(), right_room, RIGHT)?;
        assert!(rt; left.classes() == right.classes());
        assert!(rt; left.total() < 1000 && right.total() < 1000);
        assert!(rt; left.cells() < 100 && right.cells() < 100);
        assert!(rt; left.cells() + right.cells() <= left.room());
        left.merge(&right);
        assert_eq!(rt; left.total(), 13);

        let mut out = [EMPTY; 4];
        assert!(rt; left.cells() <= 4);
        assert_eq!(rt; left.write_cells(&mut out), 3);
        assert_eq!(rt; &out[..3], BOTH.as_slice());
        assert_eq!(rt; left.next(0, 1024), Some(BOTH[2]));
        left.clear();
        assert_eq!(rt; left.next(0, 0), None);
        assert_eq!(rt; left.cells(), 0);
        assert_eq!(rt; left.total(), 0);
        assert_eq!(rt; left.room(), left_room);
    }
    Ok(())
}

// The least table.
#[test]
fn two_classes_have_one_pair(rt: HostRuntime) -> Result<(), AllocError> {
    let mut small = Tally::new(rt.alloc(), 2, 1)?;
    small.add(0, 1, 4);
    assert_eq!(rt; small.next(0, 0), Some(Cell { lo: 0, hi: 1, n: 4 }));
    Ok(())
}

// A log of four places is filled several times over with two pairs: 1 + 3 + .. + 19 and 2 + 4 + ..
// + 20.
#[test]
fn a_full_log_is_put_in_order(rt: HostRuntime) -> Result<(), AllocError> {
    let mut tally = Tally::new(rt.alloc(), 16, 3)?;
    for i in 0..20u64 {
        assert!(rt; tally.classes() == 16);
        assert!(rt; tally.total() < 1000);
        assert!(rt; tally.cells() < tally.room());
        let lo = if i % 2 == 0 { 3 } else { 1 };
        tally.add(lo, 4, i + 1);
    }
    let mut out = [EMPTY; 4];
    assert!(rt; tally.cells() <= 4);
    assert_eq!(rt; tally.write_cells(&mut out), 2);
    let expected = [
        Cell {
            lo: 1,
            hi: 4,
            n: 110,
        },
        Cell {
            lo: 3,
            hi: 4,
            n: 100,
        },
    ];
    assert_eq!(rt; &out[..2], expected.as_slice());
    assert_eq!(rt; tally.get(3, 4), 100);
    Ok(())
}

// All pairs of 16 classes are 120, and half of 99 samples is 49.
#[test]
fn the_room_of_a_segment(rt: HostRuntime) {
    assert_eq!(rt; room_for(16, 1_000), 120);
    assert_eq!(rt; room_for(16, 99), 49);
    assert_eq!(rt; room_for(1024, 65_536), 32_768);
    assert_eq!(rt; room_for(1024, 1), 0);
}
