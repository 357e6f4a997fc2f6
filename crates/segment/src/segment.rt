ghost use Rattle.std.specs.Prelude.{◌≡◌, ◌≤◌, IfOk};
ghost use Rattle.calibration.specs.declared.limits.TheConstants.{MAX_SAMPLES};
ghost use Rattle.segment.specs.Segment.{IsSegment, empty_at};

mod counts;
mod halves;
mod join;
mod load;
mod readers;
mod rows;
mod take;

use crate::classes::Classes;
use calibration::{Grid, MAX_SAMPLES};
use four_point::Reducer;
pub use join::JoinRefusal;
use simple_counts::Simple;
use simple_counts::level_crossing::Crossings;
use std::alloc::{AllocError, Global};
use std::marker::Model;
use tally::{Tally, room_for};

/// What is kept of the samples `from` up to and without `to` of a gauge.
#[derive(Drop)]
pub struct Segment {
    grid: Classes,
    gauge: u16,
    from: u64,
    to: u64,
    longest: u64,
    used: u64,
    missing: u64,
    refused: u64,
    tally: Tally,
    reducer: Reducer,
    crossings: Crossings,
    simple: Simple,
}

impl Model for Segment {
    ghost use Rattle.segment.specs.Segment.{SegmentValue, IsSegment};

    ghost Value = { SegmentValue };

    ghost view = { λ s. record {
      grid = s.grid;
      gauge = s.gauge;
      from = s.from;
      to = s.to;
      longest = s.longest;
      used = s.used;
      missing = s.missing;
      refused = s.refused;
      tally = s.tally;
      reducer = s.reducer;
      crossings = s.crossings;
      simple = s.simple;
    } };

    ghost invariant = { λ s. IsSegment (record {
      grid = s.grid;
      gauge = s.gauge;
      from = s.from;
      to = s.to;
      longest = s.longest;
      used = s.used;
      missing = s.missing;
      refused = s.refused;
      tally = s.tally;
      reducer = s.reducer;
      crossings = s.crossings;
      simple = s.simple;
    }) };
}

impl Segment {
    /// Of no samples, at the place `from` of the gauge's recording. It may come to `longest`
    /// samples. This takes all memory that the segment will need.
    pub fn new(
        alloc: Global,
        grid: &Grid,
        gauge: u16,
        from: u64,
        longest: u64,
    ) -> Result<Segment, AllocError>
        requires from { from ≤ MAX_SAMPLES }
        requires some { 1 ≤ longest }
        requires longest { longest ≤ MAX_SAMPLES }
        ensures empty { IfOk result (λ s. s ≡ empty_at grid.now gauge from longest) }
        ensures rules { IfOk result IsSegment }
    {
        let classes = grid.classes();
        let tally = Tally::new(alloc, classes, room_for(classes, longest))?;
        Segment::with_tally(alloc, grid, gauge, from, longest, tally)
    }

    /// The same for a segment that seldom has samples: its tally touches no memory before.
    pub fn new_spare(
        alloc: Global,
        grid: &Grid,
        gauge: u16,
        from: u64,
        longest: u64,
    ) -> Result<Segment, AllocError>
        requires from { from ≤ MAX_SAMPLES }
        requires some { 1 ≤ longest }
        requires longest { longest ≤ MAX_SAMPLES }
        ensures empty { IfOk result (λ s. s ≡ empty_at grid.now gauge from longest) }
        ensures rules { IfOk result IsSegment }
    {
        let classes = grid.classes();
        let tally = Tally::new_log(alloc, classes, room_for(classes, longest))?;
        Segment::with_tally(alloc, grid, gauge, from, longest, tally)
    }

    // Of no samples, with an empty tally.
    fn with_tally(
        alloc: Global,
        grid: &Grid,
        gauge: u16,
        from: u64,
        longest: u64,
        tally: Tally,
    ) -> Result<Segment, AllocError>
        requires ends { (from ≤ MAX_SAMPLES) × (1 ≤ longest) × (longest ≤ MAX_SAMPLES) }
        requires tally { tally ≡ (empty_at grid.now gauge from longest).tally }
        ensures { IfOk result (λ s. (s ≡ empty_at grid.now gauge from longest) × IsSegment s) }
    {
        let reducer = Reducer::new(alloc, grid.classes())?;
        let crossings = Crossings::new(alloc, grid)?;
        let simple = Simple::new(alloc, grid)?;
        Ok(Segment {
            grid: Classes::new(grid),
            gauge,
            from,
            to: from,
            longest,
            used: 0,
            missing: 0,
            refused: 0,
            tally,
            reducer,
            crossings,
            simple,
        })
    }

    /// Makes it one of no samples, of this gauge and at this place. Grid and longest length stay.
    pub fn clear(&mut self, gauge: u16, from: u64)
        requires { from ≤ MAX_SAMPLES }
        ensures { self.new ≡ empty_at self.old.grid gauge from self.old.longest }
    {
        self.gauge = gauge;
        self.from = from;
        self.to = from;
        self.used = 0;
        self.missing = 0;
        self.refused = 0;
        self.tally.clear();
        self.reducer.clear();
        self.crossings.clear();
        self.simple.clear();
    }
}
