ghost use Rattle.std.specs.Prelude.{◌≡◌, ◌<◌, ◌≤◌, ℕ, IfOk, length, slice_index_or};
ghost use Rattle.std.specs.Thread.{IsSync};
ghost use Rattle.count_workers.specs.Plans.{IsPlan};
ghost use Rattle.count_workers.specs.lane_loans.Lent.{CanRound};
ghost use Rattle.calibration.specs.declared.limits.TheConstants.{MAX_GAUGES, MAX_BLOCK, MAX_WORKERS};

use board::block_pool::{Counted, Pool};
use calibration::{Gain, Grid, MAX_SAMPLES, MAX_WORKERS};
use count_workers::crew::{Helpers, help_all};
use count_workers::lane_loans::Lane;
use count_workers::{Plan, Prepared};
use outside::{BytesSource, HoldGate, OpenGate};
use recording::lane_ends::End;
use segment::Segment;
use std::alloc::Global;
use std::process::Abort;
use std::sync::Wait;
use std::test::Fail;
use std::thread::{Threads, join_mut};

// The standard's own example.
const EXAMPLE: &[i32] = &[-2, 1, -3, 5, -1, 3, -4, 4, -2];

// Classes of 1 N/mm² from -8 on: a raw value `r` has level `r + 8`.
fn plan(rt: &impl Abort, gauges: u16, block: u32, workers: u8) -> Plan
    requires { (1 ≤ gauges) × (gauges ≤ MAX_GAUGES) × (1 ≤ block) × (block ≤ MAX_BLOCK)
        × (1 ≤ workers) × (workers ≤ MAX_WORKERS) }
    ensures plan { IsPlan result }
    ensures gauges { result.gauges ≡ gauges }
{
    let Ok(grid) = Grid::new(16, 2, -8000, 8) else {
        panic!(rt; "the grid is refused")
    };
    Plan {
        grid,
        gauges,
        block,
        workers,
    }
}

fn gain(rt: &impl Abort) -> Gain {
    let Ok(gain) = Gain::new(1000, 1, 0) else {
        panic!(rt; "the gain is refused")
    };
    gain
}

// A lane at `at` whose source gives these samples and so many bytes more, `longest` bytes in one
// take; the takes of these numbers fail.
fn lane(
    rt: &impl Abort,
    alloc: Global,
    gauge: u16,
    at: u64,
    samples: &[i32],
    torn: usize,
    longest: usize,
    failing: &[u64],
) -> Result<Lane<BytesSource>, Fail>
    requires { (at ≤ MAX_SAMPLES) × (1 ≤ longest) }
    ensures { IfOk result (CanRound gauge) }
{
    let mut bytes = Vec::new(alloc);
    for sample in samples {
        bytes.extend_from_slice(&sample.to_le_bytes())?;
    }
    for _ in 0..torn {
        bytes.push(1)?;
    }
    Ok(Lane {
        gauge,
        gain: gain(rt),
        at,
        end: End::More,
        src: Some(BytesSource::new(bytes, longest, failing.to_vec(alloc)?)),
    })
}

// The first round of these lanes.
fn first_round<R: Threads + Wait + Sync>(
    rt: &R,
    alloc: Global,
    plan: &Plan,
    lanes: &mut [Lane<BytesSource>],
) -> Result<Prepared<BytesSource>, Fail>
    requires plan { IsPlan plan.now }
    requires long { length lanes.old ≡ plan.now.gauges }
    requires lanes { (g : ℕ) (d : _) → g < length lanes.old
        → CanRound g (slice_index_or lanes.old g d) }
    ensures gauges { IfOk result (λ p. p.gauges ≡ plan.now.gauges) }
{
    let mut prepared = Prepared::new(alloc, plan)?;
    prepared.round(rt, lanes, &OpenGate);
    Ok(prepared)
}

// Two rounds of these lanes, and then the end of the helpers.
fn two_rounds<R: Threads + Wait + Sync>(
    rt: &R,
    prepared: &mut Prepared<BytesSource>,
    lanes: &mut [Lane<BytesSource>],
)
    requires long { length lanes.old ≡ prepared.old.gauges }
    requires lanes { (g : ℕ) (d : _) → g < length lanes.old
        → CanRound g (slice_index_or lanes.old g d) }
    ensures { prepared.new.gauges ≡ prepared.old.gauges }
{
    prepared.round(rt, lanes, &OpenGate);
    prepared.round(rt, lanes, &OpenGate);
    prepared.dismiss();
}

// The same, with helpers beside both rounds.
fn two_helped_rounds<R: Threads + Wait + Sync>(
    rt: &R,
    prepared: &mut Prepared<BytesSource>,
    lanes: &mut [Lane<BytesSource>],
    helpers: &Helpers,
)
    requires long { length lanes.old ≡ prepared.old.gauges }
    requires lanes { (g : ℕ) (d : _) → g < length lanes.old
        → CanRound g (slice_index_or lanes.old g d) }
    ensures { prepared.new.gauges ≡ prepared.old.gauges }
{
    join_mut(
        rt,
        &mut ||
            requires { IsSync R.row }
        { help_all(rt, &OpenGate, helpers) },
        &mut ||
            requires { IsSync R.row × (length lanes.now ≡ prepared.now.gauges)
                × ((g : ℕ) (d : _) → g < length lanes.now
                → CanRound g (slice_index_or lanes.now g d)) }
            ensures { prepared.exit.now.gauges ≡ prepared.entry.now.gauges }
        { two_rounds(rt, prepared, lanes) },
    );
}

#[test]
fn a_recording_ends_at_its_limit(rt: HostRuntime) -> Result<(), Fail> {
    for (samples, end) in [(3, End::Ended), (4, End::TooLong)] {
        let mut lanes = [lane(
            &rt,
            rt.alloc(),
            0,
            MAX_SAMPLES - 3,
            &[1, 2, 3, 4][..samples],
            0,
            5,
            &[],
        )?];
        let prepared = first_round(&rt, rt.alloc(), &plan(&rt, 1, 4, 2), &mut lanes)?;
        assert_eq!(rt; lanes[0].end, end);
        assert_eq!(rt; lanes[0].at, MAX_SAMPLES);
        assert_eq!(rt; prepared.front(0).used(), 3);
        assert_eq!(rt; prepared.inside(), 16);
    }
    Ok(())
}

#[test]
fn a_source_is_back_after_a_fault(rt: HostRuntime) -> Result<(), Fail> {
    let mut lanes = [lane(&rt, rt.alloc(), 0, 0, EXAMPLE, 0, 4, &[5])?];
    let prepared = first_round(&rt, rt.alloc(), &plan(&rt, 1, 4, 2), &mut lanes)?;
    assert_eq!(rt; lanes[0].end, End::ReadFault);
    assert_eq!(rt; lanes[0].at, 5);
    assert!(rt; lanes[0].src.is_some());
    assert_eq!(rt; prepared.front(0).used(), 5);
    assert_eq!(rt; prepared.inside(), 16);
    Ok(())
}

#[test]
fn two_workers_count_beside_each_other(rt: HostRuntime) -> Result<(), Fail> {
    let mut prepared = Prepared::new(rt.alloc(), &plan(&rt, 1, 4, 2))?;
    let mut lanes = [lane(&rt, rt.alloc(), 0, 0, EXAMPLE, 0, 64, &[])?];
    let gate = HoldGate::new(50_000_000);
    prepared.round(&rt, &mut lanes, &gate);
    assert!(rt; !gate.gave_up());
    assert_eq!(rt; gate.passes(), 3);
    assert_eq!(rt; lanes[0].end, End::Ended);
    assert_eq!(rt; prepared.arrivals().len(), 3);
    assert_eq!(rt; prepared.front(0).used(), 9);
    assert_eq!(rt;
        prepared.front(0).residue(),
        [6, 9, 5, 13, 4, 12, 6].as_slice()
    );
    Ok(())
}

// 70 samples, and 9 with two bytes behind them, in rounds of 64.
#[test]
fn two_lanes_go_through_three_workers(rt: HostRuntime) -> Result<(), Fail> {
    let samples = [3; 70];
    let mut prepared = Prepared::new(rt.alloc(), &plan(&rt, 2, 4, 3))?;
    let mut lanes = [
        lane(&rt, rt.alloc(), 0, 0, &samples, 0, 7, &[])?,
        lane(&rt, rt.alloc(), 1, 0, EXAMPLE, 2, 7, &[])?,
    ];
    prepared.round(&rt, &mut lanes, &OpenGate);
    assert_eq!(rt; prepared.arrivals().len(), 19);
    assert_eq!(rt; prepared.front(0).used(), 64);
    assert_eq!(rt; prepared.front(1).used(), 9);
    assert_eq!(rt; (lanes[0].end, lanes[1].end), (End::More, End::Torn(2)));
    prepared.round(&rt, &mut lanes, &OpenGate);
    assert_eq!(rt; prepared.arrivals().len(), 2);
    assert_eq!(rt; prepared.front(0).used(), 6);
    assert_eq!(rt; prepared.front(1).used(), 0);
    assert_eq!(rt; (lanes[0].end, lanes[1].end), (End::Ended, End::Torn(2)));
    Ok(())
}

// Helpers count the blocks of two rounds: 64 samples of each lane, and then the standard's example;
// where no helper has begun, the workers count them.
#[test]
fn helpers_count_over_all_rounds(rt: HostRuntime) -> Result<(), Fail> {
    let mut samples = [3; 73];
    samples[64..].copy_from_slice(EXAMPLE);
    let plan = plan(&rt, 2, 4, 3);
    for helped in [true, false] {
        let mut prepared = Prepared::new(rt.alloc(), &plan)?;
        let helpers = prepared.hire(rt.alloc(), &plan)?;
        let mut lanes = [
            lane(&rt, rt.alloc(), 0, 0, &samples, 0, 7, &[])?,
            lane(&rt, rt.alloc(), 1, 0, &samples, 2, 7, &[])?,
        ];
        if helped {
            two_helped_rounds(&rt, &mut prepared, &mut lanes, &helpers);
        } else {
            two_rounds(&rt, &mut prepared, &mut lanes);
        }
        assert!(rt; !helpers.count_some(&OpenGate));
        assert_eq!(rt; (lanes[0].end, lanes[1].end), (End::Ended, End::Torn(2)));
        assert_eq!(rt; prepared.inside(), 32);
        assert_eq!(rt; prepared.arrivals().len(), 6);
        for gauge in 0..2 {
            assert_eq!(rt; prepared.front(gauge).used(), 9);
            assert_eq!(rt;
                prepared.front(gauge).residue(),
                [6, 9, 5, 13, 4, 12, 6].as_slice()
            );
        }
    }
    Ok(())
}

fn same_cycles(left: &Segment, right: &Segment) -> bool {
    for lo in 0..16 {
        for hi in 0..16 {
            if left.cycles(lo, hi) != right.cycles(lo, hi) {
                return false;
            }
        }
    }
    left.residue() == right.residue()
}

fn same_bins(left: &Segment, right: &Segment) -> bool {
    if left.grid() != right.grid() {
        return false;
    }
    for k in 1..left.grid().classes() {
        if left.crossings(k) != right.crossings(k)
            || left.peaks(k) != right.peaks(k)
            || left.valleys(k) != right.valleys(k)
            || left.ranges(k) != right.ranges(k)
        {
            return false;
        }
    }
    left.used() == right.used() && left.missing() == right.missing()
}

// These samples, counted at once.
fn counted(rt: &impl Abort, alloc: Global, samples: &[i32]) -> Result<Counted, Fail>
    requires { (1 ≤ length samples.now) × (length samples.now ≤ MAX_BLOCK) }
{
    let grid = plan(rt, 1, 1, 1).grid;
    let mut pool = Pool::new(alloc, 1, samples.len(), &grid)?;
    let mut blank = pool.lend().ok_or("a unit")?;
    blank.buffer().copy_from_slice(samples);
    Ok(blank.filled(0, 0, samples.len(), gain(rt)).count())
}

// Rounds of a block, a number of workers, a size of takes and samples that all come from `seed`.
fn random_round<R: Abort + Threads + Wait + Sync>(
    rt: &R,
    alloc: Global,
    seed: u64,
) -> Result<(), Fail> {
    let mut state = seed;
    let mut samples = [0; 160];
    for i in 0..samples.len() {
        state = state.wrapping_mul(6364136223846793005).wrapping_add(1);
        samples[i] = (state >> 40) as i32 % 20 - 10;
    }
    let plan = plan(
        rt,
        1,
        1 + (state >> 40) as u32 % 9,
        1 + (state >> 56) as u8 % 8,
    );
    let many = 1 + (state >> 45) as usize % 160;
    let longest = 1 + (state >> 55) as usize % 9;
    let mut lanes = [lane(rt, alloc, 0, 0, &samples[..many], 0, longest, &[])?];
    let prepared = first_round(rt, alloc, &plan, &mut lanes)?;
    let all = many.min(16 * plan.block as usize);
    let whole = counted(rt, alloc, &samples[..all])?;
    assert!(rt; same_cycles(prepared.front(0), whole.segment()));
    assert!(rt; same_bins(prepared.front(0), whole.segment()));
    Ok(())
}

#[test]
fn a_thousand_rounds_count_as_one_segment(rt: HostRuntime) -> Result<(), Fail> {
    for seed in 0..1000 {
        random_round(&rt, rt.alloc(), seed)?;
    }
    Ok(())
}
