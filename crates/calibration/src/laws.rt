//! What the definitions and the limits come to in numbers.

ghost use Rattle.std.specs.Prelude.{◌≡◌, ◌≢◌, ◌<◌, ◌≤◌, ◌↔◌, ◌-◌, ◌^◌, ℕ, ℤ, pos, neg_ℤ};
ghost use Rattle.calibration.specs.Gain.{GainValue};
ghost use Rattle.calibration.specs.Grid.{GridValue};
ghost use Rattle.calibration.specs.Level.{LiesInClass, reading_of};
ghost use Rattle.calibration.specs.declared.limits.TheConstants.{MAX_SAMPLES};
ghost use Rattle.calibration.specs.declared.reading.Reading.TheVariants.{Missing, Level};

/// What a raw value is: a class is so many steps of 500 kPa wide, and -2^31 says that there is no
/// reading.
pub fn readings()
    ensures level { (gain : GainValue) (grid : GridValue) (raw : ℤ) (l : ℕ) → 1 ≤ grid.w2 →
        (reading_of gain grid raw ≡ Level l) ↔
        ((raw ≢ neg_ℤ (pos (2 ^ 31))) × (l < grid.classes) × LiesInClass gain grid raw l) }
    ensures missing { (gain : GainValue) (grid : GridValue) (raw : ℤ) →
        (reading_of gain grid raw ≡ Missing) ↔ (raw ≡ neg_ℤ (pos (2 ^ 31))) }
{}

/// A recording has 2^40 - 1 samples at most.
pub fn samples()
    ensures most { MAX_SAMPLES ≡ 2 ^ 40 - 1 }
{}
