use calibration::{Grid, Items};
use four_point::Reducer;
use segment::segment_rules::{BrokenRule, Name, Parts, first_broken};
use std::alloc::{AllocError, Global};
use std::test::Fail;
use tally::{Bin, Cell};
use turning_points::Ends;

/// Parts of a history of gauge 0 that begins and ends with 8 13, and the rule that they break.
struct Row {
    to: u64,
    used: u64,
    points: u64,
    residue: &'static [u16],
    cells: &'static [Cell],
    crossings: &'static [Bin],
    peaks: &'static [Bin],
    valleys: &'static [Bin],
    ranges: &'static [Bin],
    rule: Option<BrokenRule>,
}

const CYCLE: Cell = Cell {
    lo: 8,
    hi: 13,
    n: 1,
};

// The history 8 13 8 13, over 16 classes with the reference at 8.
const SOUND: Row = Row {
    to: 4,
    used: 4,
    points: 4,
    residue: &[8, 13],
    cells: &[CYCLE],
    crossings: &[
        Bin { key: 9, n: 2 },
        Bin { key: 10, n: 2 },
        Bin { key: 11, n: 2 },
        Bin { key: 12, n: 2 },
        Bin { key: 13, n: 2 },
    ],
    peaks: &[Bin { key: 13, n: 1 }],
    valleys: &[],
    ranges: &[Bin { key: 5, n: 3 }],
    rule: None,
};

const ROWS: &[Row] = &[
    SOUND,
    Row {
        cells: &[Cell { n: 0, ..CYCLE }],
        rule: Some(BrokenRule::Order { list: 0, index: 0 }),
        ..SOUND
    },
    Row {
        cells: &[CYCLE, CYCLE],
        rule: Some(BrokenRule::Order { list: 0, index: 1 }),
        ..SOUND
    },
    Row {
        crossings: &[Bin { key: 9, n: 2 }, Bin { key: 0, n: 2 }],
        rule: Some(BrokenRule::Order { list: 1, index: 1 }),
        ..SOUND
    },
    Row {
        peaks: &[Bin { key: 7, n: 1 }],
        rule: Some(BrokenRule::Order { list: 2, index: 0 }),
        ..SOUND
    },
    Row {
        valleys: &[Bin { key: 8, n: 1 }],
        rule: Some(BrokenRule::Order { list: 3, index: 0 }),
        ..SOUND
    },
    Row {
        ranges: &[Bin { key: 5, n: 3 }, Bin { key: 16, n: 1 }],
        rule: Some(BrokenRule::Order { list: 4, index: 1 }),
        ..SOUND
    },
    Row {
        to: 1 << 40,
        rule: Some(BrokenRule::Sum { rule: 1 }),
        ..SOUND
    },
    Row {
        used: 5,
        rule: Some(BrokenRule::Sum { rule: 2 }),
        ..SOUND
    },
    Row {
        points: 5,
        rule: Some(BrokenRule::Sum { rule: 3 }),
        ..SOUND
    },
    Row {
        residue: &[8],
        rule: Some(BrokenRule::Sum { rule: 4 }),
        ..SOUND
    },
    Row {
        crossings: &[Bin { key: 9, n: 4 }],
        rule: Some(BrokenRule::Sum { rule: 5 }),
        ..SOUND
    },
    Row {
        valleys: &[Bin { key: 2, n: 2 }],
        rule: Some(BrokenRule::Sum { rule: 6 }),
        ..SOUND
    },
    Row {
        ranges: &[Bin { key: 5, n: 4 }],
        rule: Some(BrokenRule::Sum { rule: 7 }),
        ..SOUND
    },
    Row {
        ranges: &[Bin { key: 5, n: 1 }, Bin { key: 6, n: 2 }],
        rule: Some(BrokenRule::Sum { rule: 8 }),
        ..SOUND
    },
    Row {
        residue: &[8, 8],
        rule: Some(BrokenRule::Residue { rule: 1 }),
        ..SOUND
    },
    Row {
        cells: &[],
        residue: &[8, 13, 8, 13],
        rule: Some(BrokenRule::Residue { rule: 1 }),
        ..SOUND
    },
    // Four points over two levels: one in the residue is not enough.
    Row {
        to: 5,
        used: 5,
        points: 5,
        residue: &[8],
        cells: &[Cell { n: 2, ..CYCLE }],
        ranges: &[Bin { key: 5, n: 4 }],
        rule: Some(BrokenRule::Residue { rule: 2 }),
        ..SOUND
    },
    Row {
        residue: &[8, 14],
        rule: Some(BrokenRule::Residue { rule: 3 }),
        ..SOUND
    },
];

fn bins(alloc: Global, entries: &[Bin]) -> Result<Items<Bin>, AllocError> {
    Ok(Items::from_vec(entries.to_vec(alloc)?))
}

fn parts_of(alloc: Global, row: &Row) -> Result<Parts, AllocError> {
    Ok(Parts {
        name: Name {
            gauge: 0,
            from: 0,
            to: row.to,
        },
        used: row.used,
        missing: 0,
        refused: 0,
        ends: Ends {
            points: row.points,
            first: [8, 13],
            last: [8, 13],
        },
        residue: Items::from_vec(row.residue.to_vec(alloc)?),
        cells: Items::from_vec(row.cells.to_vec(alloc)?),
        crossings: bins(alloc, row.crossings)?,
        peaks: bins(alloc, row.peaks)?,
        valleys: bins(alloc, row.valleys)?,
        ranges: bins(alloc, row.ranges)?,
    })
}

fn broken(alloc: Global, grid: &Grid, parts: &Parts) -> Result<Option<BrokenRule>, AllocError> {
    let mut reducer = Reducer::new(alloc, grid.classes())?;
    let has_residue = reducer.load(parts.residue.as_slice());
    Ok(first_broken(grid, parts, has_residue))
}

#[test]
fn the_first_broken_rule(rt: HostRuntime) -> Result<(), Fail> {
    let grid = Grid::new(16, 2, -8000, 8)?;
    for (index, row) in ROWS.iter().enumerate() {
        let parts = parts_of(rt.alloc(), row)?;
        assert_eq!(rt; broken(rt.alloc(), &grid, &parts)?, row.rule, "row {index}");
    }
    Ok(())
}
