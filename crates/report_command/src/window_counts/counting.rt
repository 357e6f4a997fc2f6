ghost use Rattle.std.specs.Prelude.{◌≡◌, ◌≢◌, ◌↔◌, ◌<◌, ◌^◌, ℕ, IsTrue, length, map, slice_index, slice_index_or, IfOk};
ghost use Rattle.calibration.specs.declared.limits.TheConstants.{MAX_SAMPLES};
ghost use Rattle.segment.specs.Segment.{SegmentValue, IsSegment, empty_at};
ghost use Rattle.segment_store.specs.Held.{JoinsPart};
ghost use Rattle.report_command.specs.window_counts.Windows.{AreInstants, AreOwn, IsOwn, IsBodyOf, AddsTo};

use crate::windows::inside;
use calibration::{Grid, MAX_SAMPLES};
use recording::Head;
use segment::Segment;
use segment_store::Visitor;
use std::alloc::{AllocError, Global};
use std::marker::Model;

/// When sample 0 stands, and the window, in nanoseconds.
#[derive(Clone, Copy, Debug, PartialEq, Eq)]
pub struct Times {
    pub start: i128,
    pub from: i128,
    pub to: i128,
}

/// Joins the bodies of each gauge that lie inside a window.
#[derive(Drop)]
pub struct Windows {
    times: Times,
    periods: Vec<u32>,
    grid: Grid,
    joined: Vec<Segment>,
}

impl Model for Windows {
    ghost use Rattle.std.specs.Prelude.{◌≡◌, length};
    ghost use Rattle.report_command.specs.window_counts.Windows.{WindowsValue, AreInstants, AreOwn};

    ghost Value = { WindowsValue };

    ghost view = { λ w. record {
      times = w.times;
      periods = w.periods.items;
      grid = w.grid;
      joined = w.joined.items;
    } };

    ghost invariant = { λ w. AreInstants w.times × AreOwn w.grid w.joined.items
        × (length w.periods.items ≡ length w.joined.items) };
}

impl Windows {
    /// Of the gauges with these recordings, and no body yet. Takes a segment for each gauge.
    pub fn new(
        alloc: Global,
        grid: &Grid,
        heads: &[Head],
        times: Times,
    ) -> Result<Windows, AllocError>
        requires times { AreInstants times }
        requires few { length heads.now < 2 ^ 16 }
        ensures times { IfOk result (λ w. w.times ≡ times) }
        ensures periods { IfOk result (λ w. w.periods ≡ map (λ h. h.period_us) heads.now) }
        ensures grid { IfOk result (λ w. w.grid ≡ grid.now) }
        ensures gauges { IfOk result (λ w. length w.joined ≡ length heads.now) }
        ensures empty { IfOk result (λ w. (g : ℕ) (d : SegmentValue) → g < length w.joined →
            slice_index_or w.joined g d ≡ empty_at grid.now g 0 MAX_SAMPLES) }
    {
        let mut periods = Vec::new(alloc);
        let mut joined = Vec::new(alloc);
        for gauge in 0..heads.len() {
            match periods.push(heads[gauge].period_us) {
                Ok(()) => {}
                Err(_) => return Err(AllocError),
            }
            let segment = Segment::new(alloc, grid, gauge as u16, 0, MAX_SAMPLES)?;
            match joined.push(segment) {
                Ok(()) => {}
                Err(_) => return Err(AllocError),
            }
        }
        Ok(Windows {
            times,
            periods,
            grid: *grid,
            joined,
        })
    }

    /// The joined segment of each gauge.
    pub fn joined(&self) -> &[Segment]
        ensures joined { result.now ≡ self.now.joined }
        ensures own { AreOwn self.now.grid self.now.joined }
    {
        &self.joined
    }
}

impl Visitor for Windows {
    ghost use Rattle.report_command.specs.window_counts.Windows.{Adds};

    ghost step = { Adds };

    fn body(&mut self, _alloc: Global, seg: &Segment) -> Result<(), AllocError> {
        visit(
            &self.times,
            &self.periods,
            &self.grid,
            &mut self.joined,
            seg,
        );
        Ok(())
    }
}

// Adds a body to its gauge's segment, if it lies inside.
fn visit(times: &Times, periods: &[u32], grid: &Grid, joined: &mut [Segment], seg: &Segment)
    requires times { AreInstants times.now }
    requires own { AreOwn grid.now joined.old }
    requires periods { length periods.now ≡ length joined.old }
    ensures own { AreOwn grid.now joined.new }
    ensures gauges { length joined.new ≡ length joined.old }
    ensures rules { IsSegment seg.now }
    ensures others { (g : ℕ) (d : SegmentValue) → g ≢ seg.now.gauge →
        slice_index_or joined.new g d ≡ slice_index_or joined.old g d }
    ensures added { (d : SegmentValue) → seg.now.grid ≡ grid.now →
        seg.now.gauge < length joined.old →
        AddsTo times.now (slice_index periods.now seg.now.gauge)
        (slice_index_or joined.old seg.now.gauge d) seg.now
        (slice_index_or joined.new seg.now.gauge d) }
{
    let name = seg.name();
    let gauge = usize::from(name.gauge);
    if gauge >= joined.len() {
        return;
    }
    if !is_over(seg, grid) {
        return;
    }
    if inside(times.start, periods[gauge], times.from, times.to, &name) {
        add(&mut joined[gauge], seg);
    }
}

fn is_over(seg: &Segment, grid: &Grid) -> bool
    ensures { IsTrue result ↔ (seg.now.grid ≡ grid.now) }
{
    seg.grid() == *grid
}

// Joins a body that comes next, or the first one.
fn add(joined: &mut Segment, seg: &Segment)
    requires body { IsBodyOf seg.now joined.old }
    ensures first { joined.old.from ≡ joined.old.to → JoinsPart
        (empty_at joined.old.grid joined.old.gauge seg.now.from joined.old.longest)
        seg.now joined.new }
    ensures next { joined.old.from ≢ joined.old.to → seg.now.from ≡ joined.old.to →
        JoinsPart joined.old seg.now joined.new }
    ensures own { IsOwn joined.old.grid joined.old.gauge joined.new }
{
    let was = joined.name();
    if was.from == was.to {
        begin(joined, seg);
    } else {
        join_next(joined, seg);
    }
}

// Begins with a body.
fn begin(joined: &mut Segment, seg: &Segment)
    requires body { IsBodyOf seg.now joined.old }
    ensures first { JoinsPart
        (empty_at joined.old.grid joined.old.gauge seg.now.from joined.old.longest)
        seg.now joined.new }
    ensures own { IsOwn joined.old.grid joined.old.gauge joined.new }
{
    let gauge = joined.name().gauge;
    joined.clear(gauge, seg.name().from);
    join_next(joined, seg);
}

// Joins a body that comes next.
fn join_next(joined: &mut Segment, seg: &Segment)
    requires body { IsBodyOf seg.now joined.old }
    ensures next { seg.now.from ≡ joined.old.to → JoinsPart joined.old seg.now joined.new }
    ensures own { IsOwn joined.old.grid joined.old.gauge joined.new }
{
    let _names = (joined.name(), seg.name());
    let _joined = joined.join(seg);
}
