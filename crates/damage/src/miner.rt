//! The linear damage sum of EN 1993-1-9:2005, Annex A (Palmgren and Miner), as an exact fraction.
//!
//! `specs/miner/Damage.antt` has the sum over the ranges: the half cycles of each, times the damage
//! of one. Its fraction is the exact one, since all shares of a detail have one denominator: the
//! code adds numerators, and only a text that prints decimals rounds. `laws::one_damage` says that
//! it is one number.
//!
//! The sum of all half cycles is at most `MAX_HALF_CYCLES`, 2^42, so that the wholes fit 64 bits
//! with room to spare.
//!
//! Cost: for each range one share and 64 additions of 128 bits, about ten thousand steps for 128
//! classes.

ghost use Rattle.std.specs.Prelude.{◌≡◌, ◌≤◌, length, sum};
ghost use Rattle.damage.specs.miner.Damage.{IsDamage};

/// Laws over the definitions alone.
pub mod laws;

use crate::exact_frac::Frac;
use crate::sn_curve::{Detail, share};
use calibration::Grid;

/// The most half cycles of a damage.
pub const MAX_HALF_CYCLES: u64 = 1 << 42;

/// The damage of a detail by half cycles: `half_counts[k]` of range `k`, where range 0 does none.
pub fn damage(detail: &Detail, grid: &Grid, half_counts: &[u64]) -> Frac
    requires places { length half_counts.now ≡ grid.now.classes }
    requires few { sum half_counts.now ≤ MAX_HALF_CYCLES }
    ensures damage { IsDamage detail.now grid.now half_counts.now result }
    ensures bound { result.whole ≤ MAX_HALF_CYCLES }
{
    let classes = grid.classes();
    let (_, denominator) = share(detail, grid, 1);
    let mut total = Frac::zero(denominator);
    for k in 1..classes {
        let (numerator, _) = share(detail, grid, k);
        total.add_times(numerator, half_counts[k as usize]);
    }
    total
}
