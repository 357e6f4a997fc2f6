ghost use Rattle.std.specs.Prelude.{◌≤◌};

use board::block_pool::{Filled, Pool, Receipt};
use calibration::{Gain, Grid};
use segment::segment_rules::Name;
use std::alloc::Global;
use std::test::Fail;

// Classes of 1 N/mm² from -8 on.
fn small_grid() -> Result<Grid, Fail> {
    Grid::new(16, 2, -8000, 8).map_err(|_| Fail::from("a grid"))
}

// A unit with four samples of gauge 3 from a place on.
fn filled(
    alloc: Global,
    grid: &Grid,
    from: u64,
    den: u32,
    samples: &[i32; 4],
) -> Result<Filled, Fail>
    requires { from ≤ 100 }
{
    let gain = Gain::new(1000, den, 0).map_err(|_| Fail::from("a gain"))?;
    let mut pool = Pool::new(alloc, 1, 4, grid)?;
    let mut blank = pool.lend().ok_or("a unit")?;
    blank.buffer().copy_from_slice(samples);
    Ok(blank.filled(3, from, 4, gain))
}

// A count is known by the receipt of its block alone: not by that of another first sample, another
// gain or other samples, and a receipt of another size keeps nothing.
#[test]
fn a_count_is_known_by_its_receipt(rt: HostRuntime) -> Result<(), Fail> {
    let alloc = rt.alloc();
    let grid = small_grid()?;
    let unit = filled(alloc, &grid, 7, 1, &[1, 2, 3, 4])?;
    let mut receipt = Receipt::new(alloc, 4, &grid)?;
    assert!(rt; receipt.keep(&unit));
    let other = filled(alloc, &grid, 8, 1, &[1, 2, 3, 4])?;
    assert!(rt; !receipt.is_of(&other.count()));
    let other = filled(alloc, &grid, 7, 2, &[1, 2, 3, 4])?;
    assert!(rt; !receipt.is_of(&other.count()));
    let other = filled(alloc, &grid, 7, 1, &[1, 2, 3, 5])?;
    assert!(rt; !receipt.is_of(&other.count()));
    assert!(rt; receipt.is_of(&unit.count()));
    let mut larger = Receipt::new(alloc, 5, &grid)?;
    assert!(rt; !larger.keep(&filled(alloc, &grid, 7, 1, &[1, 2, 3, 4])?));
    Ok(())
}

#[test]
fn two_units_are_lent_and_given(rt: HostRuntime) -> Result<(), Fail> {
    let mut pool = Pool::new(rt.alloc(), 2, 4, &small_grid()?)?;
    let first = pool.lend().ok_or("a unit")?;
    let _second = pool.lend().ok_or("a unit")?;
    assert!(rt; pool.lend().is_none());
    assert_eq!(rt; pool.inside(), 0);
    pool.give(first);
    assert_eq!(rt; pool.inside(), 1);
    Ok(())
}

// The standard's own example: a unit is filled, counted and given back.
#[test]
fn a_unit_counts_its_samples(rt: HostRuntime) -> Result<(), Fail> {
    let mut pool = Pool::new(rt.alloc(), 1, 9, &small_grid()?)?;
    let gain = Gain::new(1000, 1, 0).map_err(|_| Fail::from("a gain"))?;
    let mut blank = pool.lend().ok_or("a unit")?;
    blank
        .buffer()
        .copy_from_slice(&[-2, 1, -3, 5, -1, 3, -4, 4, -2]);
    let counted = blank.filled(3, 7, 9, gain).count();
    assert!(rt; pool.fits(&counted));
    assert_eq!(rt;
        counted.samples(),
        [-2, 1, -3, 5, -1, 3, -4, 4, -2].as_slice()
    );
    assert_eq!(rt;
        counted.segment().name(),
        segment::segment_rules::Name {
            gauge: 3,
            from: 7,
            to: 16
        }
    );
    assert_eq!(rt; counted.segment().used(), 9);
    assert_eq!(rt;
        counted.segment().residue(),
        [6, 9, 5, 13, 4, 12, 6].as_slice()
    );
    pool.give(counted.blank());
    assert_eq!(rt; pool.inside(), 1);
    Ok(())
}
