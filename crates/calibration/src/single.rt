ghost use Rattle.std.specs.Prelude.{◌≡◌};
ghost use Rattle.calibration.specs.Level.{reading_of};

use crate::classifier::{shift_of, stress_above};
use crate::{Gain, Grid, MISSING, Reading, STEP_KPA};

/// What a raw value is by a gain and a grid. It divides once; for many values prepare a
/// `Classifier`.
pub fn level(gain: &Gain, grid: &Grid, raw: i32) -> Reading
    ensures { result ≡ reading_of gain.now grid.now raw }
{
    if raw == MISSING {
        return Reading::Missing;
    }
    let den = gain.den();
    let width = den as u64 * (grid.w2() as u64 * STEP_KPA);
    let shift = shift_of(gain.offset(), grid.low_kpa(), den);
    // A stress below the lower end is a number of 2^63 or more here, and so past every class.
    let class = stress_above(raw, gain.num(), shift).cast_unsigned() / width;
    if class < grid.classes() as u64 {
        Reading::Level(class as u16)
    } else {
        Reading::Refused
    }
}
