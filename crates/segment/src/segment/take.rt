ghost use Rattle.std.specs.Prelude.{◌≡◌, ℕ, ℤ, List, [], ◌∷◌, ◌++◌, ◌+◌, ◌-◌, ◌<◌, ◌≤◌, All, length};
ghost use Rattle.calibration.specs.declared.limits.TheConstants.{MAX_SAMPLES};
ghost use Rattle.calibration.specs.Level.{reading_of};
ghost use Rattle.turning_points.specs.Points.{points};
ghost use Rattle.segment.specs.Segment.{SameStart, Stands, StandsFor, empty_at};
ghost use Rattle.segment.specs.Readings.{AddsOne};

use super::Segment;
use crate::block::{Block, points_in, push_points};
use calibration::{Classifier, Gain, Reading};

impl Segment {
    fn skip_missing(&mut self)
        requires room { self.old.to < MAX_SAMPLES }
        requires longest { self.old.to - self.old.from < self.old.longest }
        ensures { self.new ≡
            record self.old { missing = self.old.missing + 1; to = self.old.to + 1 } }
    {
        self.missing += 1;
        self.to += 1;
    }

    fn skip_refused(&mut self)
        requires room { self.old.to < MAX_SAMPLES }
        requires longest { self.old.to - self.old.from < self.old.longest }
        ensures { self.new ≡
            record self.old { refused = self.old.refused + 1; to = self.old.to + 1 } }
    {
        self.refused += 1;
        self.to += 1;
    }

    fn take_level(&mut self, level: u16)
        requires level { level < self.old.grid.classes }
        requires room { self.old.to < MAX_SAMPLES }
        requires longest { self.old.to - self.old.from < self.old.longest }
        ensures start { SameStart self.old self.new }
        ensures used { self.new.used ≡ self.old.used + 1 }
        ensures missing { self.new.missing ≡ self.old.missing }
        ensures refused { self.new.refused ≡ self.old.refused }
        ensures end { self.new.to ≡ self.old.to + 1 }
        ensures histories { (h : List ℕ) →
            StandsFor self.old h → StandsFor self.new (h ++ level ∷ []) }
    {
        // What holds of every tally only a call of it tells; this costs nothing.
        let _classes = self.tally.classes();
        self.reducer.push(level, &mut self.tally);
        self.crossings.push(level);
        self.simple.push(level);
        self.used += 1;
        self.to += 1;
    }

    /// Takes the next sample. A level is counted; a reading that is missing or refused raises its
    /// number and the name's end, and changes nothing else.
    pub fn take(&mut self, raw: i32, gain: &Gain)
        requires room { self.old.to < MAX_SAMPLES }
        requires longest { self.old.to - self.old.from < self.old.longest }
        ensures start { SameStart self.old self.new }
        ensures reading { AddsOne (reading_of gain.now self.old.grid raw) self.old self.new }
        ensures stands { (w : List ℤ) →
            Stands self.old gain.now w → Stands self.new gain.now (w ++ raw ∷ []) }
    {
        match self.grid.reading(raw, gain) {
            Reading::Missing => self.skip_missing(),
            Reading::Refused => self.skip_refused(),
            Reading::Level(level) => self.take_level(level),
        }
    }

    // Takes the points of a block of samples.
    fn take_block(&mut self, list: &[u16], block: &Block)
        requires empty { self.old ≡
            empty_at self.old.grid self.old.gauge self.old.from self.old.longest }
        requires own { points list.now ≡ list.now }
        requires below { All (λ level. level < self.old.grid.classes) list.now }
        requires within { length list.now ≤ block.now.used }
        requires none { length list.now ≡ 0 → block.now.used ≡ 0 }
        requires room { self.old.from +
            (block.now.used + block.now.missing + block.now.refused) ≤ MAX_SAMPLES }
        requires longest { block.now.used + block.now.missing + block.now.refused ≤
            self.old.longest }
        ensures start { SameStart self.old self.new }
        ensures used { self.new.used ≡ block.now.used }
        ensures missing { self.new.missing ≡ block.now.missing }
        ensures refused { self.new.refused ≡ block.now.refused }
        ensures end { self.new.to ≡ self.old.from +
            (block.now.used + block.now.missing + block.now.refused) }
        ensures histories { (h : List ℕ) →
            points h ≡ list.now → block.now.used ≡ length h → StandsFor self.new h }
    {
        self.simple.take_points(list, &mut self.crossings);
        push_points(&mut self.reducer, &mut self.tally, list);
        self.used = block.used as u64;
        self.missing = block.missing as u64;
        self.refused = block.refused as u64;
        self.to = self.from + (block.used as u64 + block.missing as u64 + block.refused as u64);
    }

    /// Counts the samples of a whole block, where nothing was taken yet. `levels` is room for the
    /// block's levels, and has a place for each sample.
    pub fn count_block(&mut self, raws: &[i32], classifier: &Classifier, levels: &mut [u16])
        requires empty { self.old ≡
            empty_at self.old.grid self.old.gauge self.old.from self.old.longest }
        requires grid { classifier.now.grid ≡ self.old.grid }
        requires levels { length raws.now ≤ length levels.old }
        requires room { self.old.from + length raws.now ≤ MAX_SAMPLES }
        requires longest { length raws.now ≤ self.old.longest }
        ensures start { SameStart self.old self.new }
        ensures end { self.new.to ≡ self.old.from + length raws.now }
        ensures stands { Stands self.new classifier.now.gain raws.now }
        ensures levels { length levels.new ≡ length levels.old }
    {
        let block = points_in(raws, classifier, levels);
        self.take_block(&levels[..block.points], &block);
    }
}
