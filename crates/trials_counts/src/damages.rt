ghost use Rattle.std.specs.Prelude.{◌≤◌, IsTrue, sum};

use calibration::Grid;
use damage::miner::{MAX_HALF_CYCLES, damage};
use damage::sn_curve::{Detail, Kind};
use std::test::Fail;

// Whether the sum of the counts is within its limit.
fn is_few(half_counts: &[u64]) -> bool
    ensures { IsTrue result → sum half_counts.now ≤ MAX_HALF_CYCLES }
{
    let mut total: u64 = 0;
    for &count in half_counts {
        if count > MAX_HALF_CYCLES - total {
            return false;
        }
        total += count;
    }
    true
}

// Detail, class width, half cycles of some ranges, and the damage as a fraction and in decimals.
// The values come from Python's exact `Fraction`, by the equations of the standard.
#[test]
fn damage_of_some_ranges(rt: HostRuntime) -> Result<(), Fail> {
    let table = [
        (
            (Kind::Normal, 71, 100),
            2,
            [(71, 4000000), (0, 0)],
            1,
            0,
            100431314774943243998824192000000000,
            (1, 0),
        ),
        (
            (Kind::Normal, 50, 100),
            1,
            [(74, 4000000), (0, 0)],
            0,
            7048920061736652429440000000000000,
            17395119888596560000000000000000000,
            (0, 405224000),
        ),
        (
            (Kind::Normal, 50, 100),
            1,
            [(73, 10000000), (0, 0)],
            0,
            16584572744000000000000000000000000,
            17395119888596560000000000000000000,
            (0, 953403763),
        ),
        (
            (Kind::Normal, 50, 100),
            1,
            [(41, 10000000), (0, 0)],
            0,
            926849608000000000000000000000000,
            17395119888596560000000000000000000,
            (0, 53282163),
        ),
        (
            (Kind::Normal, 50, 100),
            1,
            [(40, 4398046511104), (0, 0)],
            0,
            0,
            17395119888596560000000000000000000,
            (0, 0),
        ),
        (
            (Kind::Shear, 80, 135),
            1,
            [(55, 1), (54, 2199023255552)],
            0,
            7221580691428125,
            1342177280000000000000000,
            (0, 6),
        ),
        (
            (Kind::Normal, 50, 100),
            1,
            [(74, 4000000), (73, 10000000)],
            1,
            6238372917140092429440000000000000,
            17395119888596560000000000000000000,
            (1, 358627763),
        ),
        (
            (Kind::Normal, 36, 135),
            15,
            [(127, 2199023255552), (126, 2199023255552)],
            49518713216,
            1461354972536476518779235336192000,
            3365812418319935967854592000000000,
            (49518713216, 434176000),
        ),
    ];
    for ((kind, category, gamma), w2, counts, whole, num, den, decimals) in table {
        let detail = Detail::new(kind, category, gamma)?;
        let grid = Grid::new(128, w2, -64000, 64)?;
        let mut half_counts = [0; 128];
        for (k, count) in counts {
            let k: usize = k;
            assert!(rt; k < 128);
            half_counts[k] = count;
        }
        assert!(rt; is_few(&half_counts));
        assert!(rt; grid.classes() == 128);
        let found = damage(&detail, &grid, &half_counts);
        assert_eq!(rt; (found.whole, found.num, found.den), (whole, num, den));
        assert_eq!(rt; found.ceil_decimals(), decimals, "{category} {gamma}");
    }
    Ok(())
}
