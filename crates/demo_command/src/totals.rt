ghost use Rattle.std.specs.Prelude.{◌≡◌, ◌≤◌, ◌<◌, ℕ, length, slice_index_or, IfOk};
ghost use Rattle.segment.specs.Segment.{empty_at};
ghost use Rattle.demo_command.specs.Made.{demo_grid};
ghost use Rattle.demo_command.specs.Totals.{CanJoin, HasJoined};
ghost use Rattle.calibration.specs.declared.limits.TheConstants.{MAX_DEMO_SAMPLES};
ghost use Rattle.demo_command.specs.declared.made.TheConstants.{GAUGES};

use crate::made::{GAUGES, grid_of_demo};
use count_workers::Prepared;
use recording::Synth;
use segment::Segment;
use std::alloc::{AllocError, Global};

fn new_total(alloc: Global, gauge: u16, samples: u64) -> Result<Segment, AllocError>
    requires some { 1 ≤ samples }
    requires few { samples ≤ MAX_DEMO_SAMPLES }
    ensures { IfOk result (λ total. total ≡ empty_at demo_grid gauge 0 samples) }
{
    Segment::new(alloc, &grid_of_demo(), gauge, 0, samples)
}

/// A segment for each gauge, in which nothing is counted and which may come to so many samples.
pub fn new_totals(alloc: Global, samples: u64) -> Result<[Segment; GAUGES], AllocError>
    requires some { 1 ≤ samples }
    requires few { samples ≤ MAX_DEMO_SAMPLES }
    ensures long { IfOk result (λ totals. length totals ≡ GAUGES) }
    ensures nothing { IfOk result (λ totals. (g : ℕ) (d : _) → g < GAUGES →
        slice_index_or totals g d ≡ empty_at demo_grid g 0 samples) }
{
    Ok([
        new_total(alloc, 0, samples)?,
        new_total(alloc, 1, samples)?,
        new_total(alloc, 2, samples)?,
        new_total(alloc, 3, samples)?,
    ])
}

/// Joins the front of each gauge, which comes next.
pub fn join_fronts(prepared: &Prepared<Synth>, totals: &mut [Segment])
    requires long { (length totals.old ≡ GAUGES) × (prepared.now.gauges ≡ GAUGES) }
    requires next { (g : ℕ) (d : _) → g < GAUGES →
        CanJoin prepared.now.board g (slice_index_or totals.old g d) }
    ensures long { length totals.new ≡ GAUGES }
    ensures joined { (g : ℕ) (d : _) → g < GAUGES → HasJoined prepared.now.board g
        (slice_index_or totals.old g d) (slice_index_or totals.new g d) }
{
    for gauge in 0..GAUGES {
        match totals[gauge].join(prepared.front(gauge as u16)) {
            Ok(()) => {}
            Err(_) => unreachable!(),
        }
    }
}
