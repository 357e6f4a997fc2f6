ghost use Rattle.std.specs.Prelude.{◌≡◌, ◌≤◌, ◌<◌, ℕ, length, slice_index_or, IfOk};
ghost use Rattle.demo_command.specs.Totals.{IsTotal};
ghost use Rattle.calibration.specs.declared.limits.TheConstants.{MAX_SEED, MAX_DEMO_SAMPLES};
ghost use Rattle.calibration.specs.declared.limits.TheConstants.{MAX_WORKERS};
ghost use Rattle.demo_command.specs.declared.made.TheConstants.{GAUGES};

use crate::made::{BLOCK, GAUGES, grid_of_demo, made_lanes};
use crate::totals::{join_fronts, new_totals};
use board::flow::BLOCKS_PER_WINDOW;
use count_workers::{OutOfMemory, Plan, Prepared};
use outside::Gate;
use recording::Synth;
use segment::Segment;
use std::sync::Wait;
use std::thread::Threads;

/// Counts the made recordings in rounds, and joins what each round gave.
pub fn count_made<R: AllocGlobal + Threads + Wait + Sync, G: Gate + Sync>(
    rt: &R,
    seed: u64,
    samples: u64,
    workers: u8,
    gate: &G,
) -> Result<[Segment; GAUGES], OutOfMemory>
    requires seed { seed ≤ MAX_SEED }
    requires samples { (1 ≤ samples) × (samples ≤ MAX_DEMO_SAMPLES) }
    requires workers { (1 ≤ workers) × (workers ≤ MAX_WORKERS) }
    ensures long { IfOk result (λ totals. length totals ≡ GAUGES) }
    ensures all { IfOk result (λ totals. (g : ℕ) (d : _) → g < GAUGES →
        IsTotal seed samples g samples (slice_index_or totals g d)) }
{
    let plan = Plan {
        grid: grid_of_demo(),
        gauges: GAUGES as u16,
        block: BLOCK,
        workers,
    };
    let mut totals = new_totals(rt.alloc(), samples)?;
    let mut prepared = Prepared::new(rt.alloc(), &plan)?;
    let mut lanes = made_lanes(seed, samples);
    for _ in 0..samples / (BLOCKS_PER_WINDOW as u64 * BLOCK as u64) + 1 {
        prepared.round(rt, &mut lanes, gate);
        join_fronts(&prepared, &mut totals);
    }
    Ok(totals)
}
