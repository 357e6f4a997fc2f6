ghost use Rattle.std.specs.Prelude.{◌≡◌, ◌≤◌, ◌<◌, ◌+◌, ℕ, length, slice_index_or};
ghost use Rattle.demo_command.specs.Made.{demo_gain, demo_grid, IsStart};
ghost use Rattle.calibration.specs.declared.limits.TheConstants.{MAX_SEED, MAX_DEMO_SAMPLES};
ghost use Rattle.demo_command.specs.declared.made.TheConstants.{GAUGES};

use calibration::{Gain, Grid};
use count_workers::lane_loans::Lane;
use recording::Synth;
use recording::lane_ends::End;

/// How many recordings are made.
pub const GAUGES: usize = 4;

/// The classes.
pub const CLASSES: u16 = 128;

/// How many half N/mm² a class is wide.
pub const WIDTH: u16 = 2;

/// The lower end of the lowest class, in kPa.
pub const LOW_KPA: i64 = -64_000;

/// The boundary of reference.
pub const REFERENCE: u16 = 64;

/// How many kPa a raw value of 1 is.
pub const KPA: i64 = 1000;

/// Samples of a block.
pub const BLOCK: u32 = 1024;

/// 128 classes of 1 N/mm² from -64 N/mm² on: each made sample has a class of its own.
pub fn grid_of_demo() -> Grid
    ensures { result ≡ demo_grid }
{
    match Grid::new(CLASSES, WIDTH, LOW_KPA, REFERENCE) {
        Ok(grid) => grid,
        Err(_) => unreachable!(),
    }
}

fn gain_of_demo() -> Gain
    ensures { result ≡ demo_gain }
{
    match Gain::new(KPA, 1, 0) {
        Ok(gain) => gain,
        Err(_) => unreachable!(),
    }
}

// A lane at the start of the recording of a gauge.
fn made_lane(gauge: u16, seed: u64, samples: u64) -> Lane<Synth>
    requires gauge { gauge < GAUGES }
    requires seed { seed ≤ MAX_SEED }
    requires samples { samples ≤ MAX_DEMO_SAMPLES }
    ensures { IsStart seed samples gauge result }
{
    Lane {
        gauge,
        gain: gain_of_demo(),
        at: 0,
        end: End::More,
        src: Some(Synth::new(seed + gauge as u64, samples)),
    }
}

/// A lane for each gauge, at the start of its recording.
pub fn made_lanes(seed: u64, samples: u64) -> [Lane<Synth>; GAUGES]
    requires seed { seed ≤ MAX_SEED }
    requires samples { samples ≤ MAX_DEMO_SAMPLES }
    ensures long { length result ≡ GAUGES }
    ensures start { (g : ℕ) (d : _) → g < GAUGES →
        IsStart seed samples g (slice_index_or result g d) }
{
    [
        made_lane(0, seed, samples),
        made_lane(1, seed, samples),
        made_lane(2, seed, samples),
        made_lane(3, seed, samples),
    ]
}
