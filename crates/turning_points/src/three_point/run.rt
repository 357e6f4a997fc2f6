ghost use Rattle.std.specs.Prelude.{◌≡◌, ℕ, ◌+◌, ◌<◌, ◌≤◌, ◌∷◌, ◌++◌, [], All, List, length, IfOk};
ghost use Rattle.turning_points.specs.three_point.Run.{CountedRange, live_after, ranges_counted, ranges_left, run};

use crate::three_point::counter::RangeCounter;
use crate::three_point::reading::{count_left, read};
use std::alloc::{AllocError, Global};
use std::marker::Model;

/// The three-point count of ASTM E1049-85, 5.4.4, over points that come one at a time. It keeps
/// what is live, and hands each range to a counter as it is counted: those that the pushes handed
/// over, and then those of `finish`, are the ranges of all points pushed.
///
/// From the oldest live point to the newest the ranges fall strictly, so no more than `classes + 1`
/// points are live.
#[derive(Debug, Drop)]
pub struct Run {
    classes: u16,
    places: Vec<u16>,
    len: usize,
}

// Clauses see the number of classes and the live points, the newest first.
impl Model for Run {
    ghost use Rattle.std.specs.Prelude.{reverse, take};
    ghost use Rattle.turning_points.specs.three_point.Live.{RunState, IsRunBuffer};

    ghost Value = { RunState };

    ghost view = { λ r.
        record { classes = r.classes; live = reverse (take r.len r.places.items) } };

    ghost invariant = { λ r. IsRunBuffer r.classes r.places.items r.len };
}

impl Run {
    ghost use Rattle.turning_points.specs.three_point.Live.{HasCounted};

    /// A run before its first point. Takes memory once, 2 bytes for each class, for as many points
    /// as can ever be live.
    pub fn new(alloc: Global, classes: u16) -> Result<Run, AllocError>
        ensures { IfOk result (λ run. run ≡ record { classes = classes; live = [] }) }
    {
        Ok(Run {
            classes,
            places: vec![in alloc; 0; classes as usize + 2]?,
            len: 0,
        })
    }

    /// Reads the next point, and hands over the ranges that it closes: steps 1 to 5. Takes no
    /// memory; a point is dropped once, so this takes a constant number of steps on average.
    #[inline]
    pub fn push<C: RangeCounter>(&mut self, point: u16, counter: &mut C)
        requires point { point < self.old.classes }
        requires counter { self.old.classes ≤ C.classes counter.old }
        requires room { length self.old.live ≤ C.room counter.old }

        // What was handed over, with what is to come, is the run of one point more.
        ensures counted { (points : List ℕ) → HasCounted points self.old.live
            (C.holds counter.old) →
            HasCounted (points ++ point ∷ []) self.new.live (C.holds counter.new) }
        ensures ranges { (given : List CountedRange) → C.holds counter.old given →
            C.holds counter.new (given ++ ranges_counted point self.old.live) }
        ensures live { self.new.live ≡ live_after point self.old.live }
        ensures bound { length self.new.live ≤ self.new.classes + 1 }

        // A half unit takes a live point away.
        ensures room { C.room counter.old + length self.new.live
            ≤ C.room counter.new + length self.old.live + 1 }
        ensures classes { self.new.classes ≡ self.old.classes }
        ensures counter_classes { C.classes counter.new ≡ C.classes counter.old }
    {
        self.len = read(&mut self.places, self.len, point, counter);
    }

    /// Reads points, one after the other.
    #[inline]
    pub fn push_all<C: RangeCounter>(&mut self, points: &[u16], counter: &mut C)
        requires points { All (λ point. point < self.old.classes) points.now }
        requires counter { self.old.classes ≤ C.classes counter.old }
        requires room { length self.old.live + length points.now ≤ C.room counter.old }
        ensures counted { (before : List ℕ) → HasCounted before self.old.live
            (C.holds counter.old) →
            HasCounted (before ++ points.now) self.new.live (C.holds counter.new) }
        ensures bound { length self.new.live ≤ self.new.classes + 1 }
        ensures room { C.room counter.old + length self.new.live
            ≤ C.room counter.new + length self.old.live + length points.now }
        ensures classes { self.new.classes ≡ self.old.classes }
        ensures counter_classes { C.classes counter.new ≡ C.classes counter.old }
    {
        let places = self.places.as_mut_slice();
        let mut len = self.len;
        for &point in points {
            len = read(places, len, point, counter);
        }
        self.len = len;
    }

    /// Hands over the ranges that are left when all points were read: step 6, in order of the
    /// history.
    pub fn finish<C: RangeCounter>(self, counter: &mut C)
        requires counter { self.classes ≤ C.classes counter.old }
        requires room { length self.live ≤ C.room counter.old }
        ensures counted { (points : List ℕ) → HasCounted points self.live (C.holds counter.old) →
            C.holds counter.new (run [] points) }
        ensures ranges { (given : List CountedRange) → C.holds counter.old given →
            C.holds counter.new (given ++ ranges_left self.live) }
        ensures room { C.room counter.old ≤ C.room counter.new + length self.live }
        ensures classes { C.classes counter.new ≡ C.classes counter.old }
    {
        count_left(&self.places, self.len, counter);
    }
}
