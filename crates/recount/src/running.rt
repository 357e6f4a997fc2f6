ghost use Rattle.std.specs.Prelude.{◌≡◌, ◌≤◌, ◌<◌, ◌+◌, ℕ, ℤ, List, [], ◌++◌, length, IfOk};
ghost use Rattle.calibration.specs.Gain.{GainValue};
ghost use Rattle.calibration.specs.Grid.{GridValue};
ghost use Rattle.calibration.specs.History.{history};
ghost use Rattle.turning_points.specs.Points.{points};
ghost use Rattle.turning_points.specs.three_point.Run.{run};
ghost use Rattle.calibration.specs.declared.limits.TheConstants.{MAX_SAMPLES};
ghost use Rattle.tally.specs.declared.cells.TheConstants.{MAX_TOTAL};

use calibration::Classifier;
use segment::SampleCounts;
use std::alloc::{AllocError, Global};
use turning_points::Turner;
use turning_points::three_point::{RangeCounter, Run};

/// The most samples that a count takes at once.
pub const MAX_AT_ONCE: usize = 1 << 20;

/// What samples that come in pieces have come to: how many there are of each kind, and the ranges
/// that the standard's run has handed to a counter so far. It takes memory once, 2 bytes for each
/// class.
#[derive(Drop)]
pub struct RunningCount<C> {
    pub counts: SampleCounts,
    turner: Turner,
    run: Run,
    counter: C,
    ghost all: { counts.used + counts.missing + counts.refused ≡ counts.samples },
}

impl<C: RangeCounter + Drop> RunningCount<C> {
    ghost use Rattle.recount.specs.Counted.{HasCountedSamples};

    /// Of no samples, by a grid of so many classes. The counter was handed nothing yet, and has
    /// room for the half units of any recording.
    pub fn new(alloc: Global, classes: u16, counter: C) -> Result<RunningCount<C>, AllocError>
        requires classes { C.classes counter ≡ classes }
        requires room { MAX_TOTAL ≤ C.room counter }
        requires holds { C.holds counter [] }
        ensures { (grid : GridValue) (gain : GainValue) → grid.classes ≡ classes →
            IfOk result (λ count. HasCountedSamples C.classes C.room C.holds (C.room counter)
            grid gain count []) }
    {
        Ok(RunningCount {
            counts: SampleCounts::new(),
            turner: Turner::new(),
            run: Run::new(alloc, classes)?,
            counter,
        })
    }

    /// Takes the next samples, by way of `levels`, which has a place for each of them. It takes no
    /// memory.
    pub fn take(&mut self, classifier: &Classifier, raws: &[i32], levels: &mut [u16])
        requires samples { self.old.counts.samples ≤ MAX_SAMPLES }
        requires few { length raws.now ≤ MAX_AT_ONCE }
        requires room { length raws.now ≤ length levels.old }
        requires counted { (start : ℕ) × ((w : List ℤ) ×
            HasCountedSamples C.classes C.room C.holds start
            classifier.now.grid classifier.now.gain self.old w) }
        ensures counted { (start : ℕ) (w : List ℤ) →
            HasCountedSamples C.classes C.room C.holds start
            classifier.now.grid classifier.now.gain self.old w →
            HasCountedSamples C.classes C.room C.holds start
            classifier.now.grid classifier.now.gain self.new (w ++ raws.now) }
        ensures samples { self.new.counts.samples ≡ self.old.counts.samples + length raws.now }
        ensures length { length levels.new ≡ length levels.old }
    {
        let kinds = classifier.levels(raws, levels);
        let piece = &mut levels[..kinds.used];
        let decided = self.turner.keep_decided(piece);
        self.run.push_all(&piece[..decided], &mut self.counter);
        self.counts = self.counts.plus(&SampleCounts {
            samples: raws.len() as u64,
            used: kinds.used as u64,
            missing: kinds.missing as u64,
            refused: kinds.refused as u64,
        });
    }

    /// The counter, with all ranges of the whole history of the samples.
    pub fn finish(self) -> C
        requires few { self.counts.samples ≤ MAX_SAMPLES }
        requires counted { (start : ℕ) × ((grid : GridValue) × ((gain : GainValue) × ((w : List ℤ) ×
            HasCountedSamples C.classes C.room C.holds start grid gain self w))) }
        ensures holds { (start : ℕ) (grid : GridValue) (gain : GainValue) (w : List ℤ) →
            HasCountedSamples C.classes C.room C.holds start grid gain self w →
            C.holds result (run [] (points (history grid gain w))) }
        ensures room { (start : ℕ) (grid : GridValue) (gain : GainValue) (w : List ℤ) →
            HasCountedSamples C.classes C.room C.holds start grid gain self w →
            start ≤ C.room result + self.counts.used + 1 }
        ensures classes { C.classes result ≡ C.classes self.counter }
    {
        let RunningCount {
            turner,
            mut run,
            mut counter,
            ..
        } = self;
        if let Some(point) = turner.finish() {
            run.push(point, &mut counter);
        }
        run.finish(&mut counter);
        counter
    }
}
