ghost use Rattle.std.specs.Prelude.{◌≡◌, length};

use board::{Board, Deposit, MAX_GAUGES};
use calibration::{Gain, Grid, MAX_SAMPLES};
use segment::Segment;
use segment::segment_rules::Name;
use std::alloc::Global;
use std::process::Abort;
use std::test::Fail;

/// A board for blocks of four samples, over the classes of its segments.
#[derive(Drop)]
struct Table {
    grid: Grid,
    gauges: u16,
    board: Board,
    ghost classes: { board.grid ≡ grid },
    ghost all: { length board.rows ≡ gauges },
}

impl Table {
    fn new(rt: &impl Abort, alloc: Global, gauges: u16) -> Result<Table, Fail> {
        assert!(rt; gauges <= MAX_GAUGES);
        let grid = Grid::new(16, 2, -8000, 8)?;
        let board = Board::new(alloc, gauges, 4, &grid)?;
        Ok(Table {
            grid,
            gauges,
            board,
        })
    }

    fn begin(&mut self, rt: &impl Abort, starts: &[u64]) {
        assert!(rt; starts.len() == usize::from(self.gauges));
        assert!(rt; starts.iter().all(|&start| start <= MAX_SAMPLES));
        self.board.begin(starts);
    }

    fn deposit(&mut self, rt: &impl Abort, segment: &Segment) -> Deposit {
        assert!(rt; segment.grid() == self.grid);
        self.board.deposit(segment)
    }

    fn front(&self, rt: &impl Abort, gauge: u16) -> &Segment {
        assert!(rt; gauge < self.gauges);
        self.board.front(gauge)
    }
}

fn name(gauge: u16, from: u64, to: u64) -> Name {
    Name { gauge, from, to }
}

// A level of 0 to 15, and now and then no reading, or one outside the classes.
fn sample(gauge: u16, i: u64) -> i32 {
    let x = (i % 1000 * 7919 + u64::from(gauge) * 4729) % 10007 % 18;
    if x == 16 { i32::MIN } else { x as i32 - 8 }
}

// Takes the samples that the name names, one at a time.
fn counted(rt: &impl Abort, alloc: Global, grid: &Grid, name: Name) -> Result<Segment, Fail> {
    let gain = Gain::new(1000, 1, 0)?;
    assert!(rt; name.from <= MAX_SAMPLES);
    let mut segment = Segment::new(alloc, grid, name.gauge, name.from, 100)?;
    for i in name.from..name.to {
        let at = segment.name();
        assert!(rt; at.to < MAX_SAMPLES && at.to - at.from < segment.longest());
        segment.take(sample(name.gauge, i), &gain);
    }
    Ok(segment)
}

// By hand from the rules: the names that are deposited one after another, and the answers.
#[test]
fn blocks_are_placed_or_refused_by_their_names(rt: HostRuntime) -> Result<(), Fail> {
    let mut table = Table::new(&rt, rt.alloc(), 1)?;
    table.begin(&rt, &[0]);
    let deposits = [
        (name(0, 4, 8), Deposit::Placed),
        (name(0, 0, 4), Deposit::Placed),
        // There already, in the interval of both.
        (name(0, 4, 8), Deposit::Double(name(0, 0, 8))),
        (name(0, 0, 2), Deposit::Double(name(0, 0, 8))),
        // Behind the window, and of no gauge of the board.
        (name(0, 64, 68), Deposit::Stranger(name(0, 64, 68))),
        (name(1, 0, 4), Deposit::Stranger(name(1, 0, 4))),
        // Empty, longer than a block, and not where a block begins.
        (name(0, 8, 8), Deposit::Stranger(name(0, 8, 8))),
        (name(0, 8, 13), Deposit::Stranger(name(0, 8, 13))),
        (name(0, 9, 13), Deposit::Stranger(name(0, 9, 13))),
        // The last block of the window, a short one, and one that does not touch it.
        (name(0, 60, 64), Deposit::Placed),
        (name(0, 16, 18), Deposit::Placed),
        (name(0, 20, 24), Deposit::Placed),
        (name(0, 20, 22), Deposit::Double(name(0, 20, 24))),
    ];
    for (at, answer) in deposits {
        let unit = counted(&rt, rt.alloc(), &table.grid, at)?;
        assert_eq!(rt; table.deposit(&rt, &unit), answer);
    }
    assert_eq!(rt; table.front(&rt, 0).name(), name(0, 0, 8));
    let placed = [
        name(0, 4, 8),
        name(0, 0, 4),
        name(0, 60, 64),
        name(0, 16, 18),
        name(0, 20, 24),
    ];
    assert_eq!(rt; table.board.arrivals(), placed.as_slice());
    Ok(())
}

/// A gauge, and the samples from a place up to and without another.
type Part = (u16, u64, u64);

// Two gauges, whose windows begin at 3 and 8; the last block of each has two samples.
const STARTS: [u64; 2] = [3, 8];

const FOUR_BLOCKS: &[Part] = &[(0, 3, 7), (0, 7, 9), (1, 8, 12), (1, 12, 14)];

const SIXTEEN_BLOCKS: &[Part] = &[
    (0, 3, 7),
    (0, 7, 11),
    (0, 11, 15),
    (0, 15, 19),
    (0, 19, 23),
    (0, 23, 27),
    (0, 27, 31),
    (0, 31, 33),
    (1, 8, 12),
    (1, 12, 16),
    (1, 16, 20),
    (1, 20, 24),
    (1, 24, 28),
    (1, 28, 32),
    (1, 32, 36),
    (1, 36, 38),
];

const ORDERS_OF_FOUR: [[usize; 4]; 24] = [
    [0, 1, 2, 3],
    [0, 1, 3, 2],
    [0, 2, 1, 3],
    [0, 2, 3, 1],
    [0, 3, 1, 2],
    [0, 3, 2, 1],
    [1, 0, 2, 3],
    [1, 0, 3, 2],
    [1, 2, 0, 3],
    [1, 2, 3, 0],
    [1, 3, 0, 2],
    [1, 3, 2, 0],
    [2, 0, 1, 3],
    [2, 0, 3, 1],
    [2, 1, 0, 3],
    [2, 1, 3, 0],
    [2, 3, 0, 1],
    [2, 3, 1, 0],
    [3, 0, 1, 2],
    [3, 0, 2, 1],
    [3, 1, 0, 2],
    [3, 1, 2, 0],
    [3, 2, 0, 1],
    [3, 2, 1, 0],
];

fn assert_counts(rt: &impl Abort, segment: &Segment, whole: &Segment) {
    let classes = whole.grid().classes();
    assert!(rt; segment.grid().classes() == classes);
    for k in 0..classes {
        assert_eq!(rt; segment.peaks(k), whole.peaks(k));
        assert_eq!(rt; segment.valleys(k), whole.valleys(k));
        assert_eq!(rt; segment.ranges(k), whole.ranges(k));
        if k > 0 {
            assert_eq!(rt; segment.crossings(k), whole.crossings(k));
        }
    }
}

fn assert_cycles(rt: &impl Abort, segment: &Segment, whole: &Segment) {
    for lo in 0..16 {
        for hi in 0..16 {
            assert_eq!(rt; segment.cycles(lo, hi), whole.cycles(lo, hi));
        }
    }
    assert_eq!(rt; segment.residue(), whole.residue());
}

fn assert_same(rt: &impl Abort, segment: &Segment, whole: &Segment) {
    assert_eq!(rt; segment.name(), whole.name());
    assert_eq!(rt; segment.used(), whole.used());
    assert_eq!(rt; segment.missing(), whole.missing());
    assert_eq!(rt; segment.refused(), whole.refused());
    assert_eq!(rt; segment.ends(), whole.ends());
    assert_cycles(rt, segment, whole);
    assert_counts(rt, segment, whole);
}

fn all_counted(
    rt: &impl Abort,
    alloc: Global,
    grid: &Grid,
    parts: &[Part],
) -> Result<Vec<Segment>, Fail> {
    let mut units = Vec::new(alloc);
    for &(gauge, from, to) in parts {
        units.push(counted(rt, alloc, grid, Name { gauge, from, to })?)?;
    }
    Ok(units)
}

// Deposits the units in this order, and compares the fronts with the segments of all samples.
fn assert_order(
    rt: &impl Abort,
    table: &mut Table,
    units: &[Segment],
    order: &[usize],
    wholes: &[Segment],
) -> Result<(), Fail> {
    table.begin(rt, &STARTS);
    for &k in order {
        let unit = units.get(k).ok_or("a block")?;
        assert_eq!(rt; table.deposit(rt, unit), Deposit::Placed);
    }
    for whole in wholes {
        assert_same(rt, table.front(rt, whole.name().gauge), whole);
    }
    Ok(())
}

#[test]
fn four_blocks_make_the_same_fronts_in_any_order(rt: HostRuntime) -> Result<(), Fail> {
    let mut table = Table::new(&rt, rt.alloc(), 2)?;
    let grid = table.grid;
    let units = all_counted(&rt, rt.alloc(), &grid, FOUR_BLOCKS)?;
    let wholes = all_counted(&rt, rt.alloc(), &grid, &[(0, 3, 9), (1, 8, 14)])?;
    for order in &ORDERS_OF_FOUR {
        assert_order(&rt, &mut table, &units, order, &wholes)?;
    }
    Ok(())
}

// Puts the places in an order that the number makes of the one before, and answers the next number.
fn shuffle(order: &mut [usize; 16], seed: u64) -> u64 {
    let mut state = seed;
    for i in 1..16usize {
        state = state
            .wrapping_mul(6364136223846793005)
            .wrapping_add(1442695040888963407);
        order.swap(i, (state >> 33) as usize % (i + 1));
    }
    state
}

#[test]
fn sixteen_blocks_make_the_same_fronts_in_200_orders(rt: HostRuntime) -> Result<(), Fail> {
    let mut table = Table::new(&rt, rt.alloc(), 2)?;
    let grid = table.grid;
    let units = all_counted(&rt, rt.alloc(), &grid, SIXTEEN_BLOCKS)?;
    let wholes = all_counted(&rt, rt.alloc(), &grid, &[(0, 3, 33), (1, 8, 38)])?;
    let mut order = [0, 1, 2, 3, 4, 5, 6, 7, 8, 9, 10, 11, 12, 13, 14, 15];
    let mut state = 14;
    for _ in 0..200 {
        state = shuffle(&mut order, state);
        assert_order(&rt, &mut table, &units, &order, &wholes)?;
    }
    Ok(())
}
