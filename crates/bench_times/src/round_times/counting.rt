ghost use Rattle.std.specs.Prelude.{◌≡◌, ◌<◌, ◌≤◌, ℕ, length, slice_index_or};
ghost use Rattle.count_workers.specs.lane_loans.Lent.{CanRound};

use count_workers::Prepared;
use count_workers::lane_loans::Lane;
use outside::{OpenGate, SteadySource};
use recording::lane_ends::End;
use std::sync::Wait;
use std::thread::Threads;

/// Makes rounds until the first lane has ended, `most` at most, and answers how many were made and
/// how many samples were used.
pub fn count<R: Threads + Wait + Sync>(
    rt: &R,
    prepared: &mut Prepared<SteadySource>,
    lanes: &mut [Lane<SteadySource>],
    gauges: u16,
    most: u32,
) -> (u32, u64)
    requires some { 1 ≤ length lanes.old }
    requires long { length lanes.old ≡ prepared.old.gauges }
    requires gauges { gauges ≡ prepared.old.gauges }
    requires lanes { (g : ℕ) (d : _) → g < length lanes.old
        → CanRound g (slice_index_or lanes.old g d) }
{
    let mut used = 0u64;
    for made in 0..most {
        if lanes[0].end != End::More {
            return (made, used);
        }
        prepared.round(rt, lanes, &OpenGate);
        used = used.wrapping_add(all_used(prepared, gauges));
    }
    (most, used)
}

fn all_used(prepared: &Prepared<SteadySource>, gauges: u16) -> u64
    requires { gauges ≤ prepared.now.gauges }
{
    let mut used = 0u64;
    for gauge in 0..gauges {
        used = used.wrapping_add(prepared.front(gauge).used());
    }
    used
}
