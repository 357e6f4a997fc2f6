ghost use Rattle.std.specs.Prelude.{◌≡◌, ◌<◌, ◌++◌, [], ◌∷◌, List, length, replicate, slice_index, slice_index_or, IfOk};
ghost use Rattle.segment.specs.segment_rules.Parts.{PartsValue};
ghost use Rattle.segment.specs.Parts.{parts_of};
ghost use Rattle.segment.specs.Segment.{SegmentValue};
ghost use Rattle.segment_store.specs.Held.{AreHeld, ends_of};
ghost use Rattle.segment_store.specs.Image.{ends_after};

use calibration::{Grid, MAX_SAMPLES};
use segment::Segment;
use std::alloc::{AllocError, AllocFailed, Global};
use std::marker::Model;

/// The held segment of each gauge.
#[derive(Drop)]
pub(crate) struct Held {
    segments: Vec<Segment>,
}

impl Model for Held {
    ghost use Rattle.std.specs.Prelude.{List};
    ghost use Rattle.segment.specs.Segment.{SegmentValue};

    ghost Value = { List SegmentValue };

    ghost view = { λ h. h.segments.items };
}

impl Held {
    // Of so many gauges, and no samples. This takes all memory for what will be held.
    pub(crate) fn new(alloc: Global, grid: &Grid, gauges: u16) -> Result<Held, AllocError>
        ensures empty { IfOk result (λ h. AreHeld grid.now [] h) }
        ensures ends { IfOk result (λ h. ends_of h ≡ replicate gauges 0) }
        ensures gauges { IfOk result (λ h. length h ≡ gauges) }
    {
        let mut segments = Vec::new(alloc);
        for gauge in 0..gauges {
            let segment = Segment::new(alloc, grid, gauge, 0, MAX_SAMPLES)?;
            match segments.push(segment) {
                Ok(()) => {}
                Err(_) => return Err(AllocError),
            }
        }
        Ok(Held { segments })
    }

    pub(crate) fn get(&self, gauge: u16) -> &Segment
        requires { gauge < length self.now }
        ensures segment { (d : SegmentValue) → result.now ≡ slice_index_or self.now gauge d }
    {
        &self.segments[usize::from(gauge)]
    }

    pub(crate) fn as_slice(&self) -> &[Segment]
        ensures { result.now ≡ self.now }
    {
        &self.segments
    }

    // Up to where a gauge is held.
    pub(crate) fn end(&self, gauge: u16) -> u64
        requires { gauge < length self.now }
        ensures { result ≡ slice_index (ends_of self.now) gauge }
    {
        self.get(gauge).name().to
    }

    // How many gauges there are.
    pub(crate) fn gauges(&self) -> usize
        ensures { result ≡ length self.now }
    {
        self.segments.len()
    }

    // Joins a segment to its gauge's.
    pub(crate) fn join(&mut self, segment: &Segment)
        requires known { segment.now.gauge < length self.old }
        requires next { segment.now.from ≡ slice_index (ends_of self.old) segment.now.gauge }
        requires held { (bodies : List PartsValue) × AreHeld segment.now.grid bodies self.old }
        ensures held { (bodies : List PartsValue) → AreHeld segment.now.grid bodies self.old →
            AreHeld segment.now.grid (bodies ++ parts_of segment.now ∷ []) self.new }
        ensures ends { ends_of self.new ≡ ends_after (ends_of self.old) (parts_of segment.now) }
        ensures gauges { length self.new ≡ length self.old }
    {
        let gauge = usize::from(segment.name().gauge);
        let _joined = self.segments[gauge].join(segment);
    }
}
