ghost use Rattle.std.specs.Prelude.{◌≡◌, ℕ, ℤ, List, Some, ◌∷◌, ◌++◌, ◌+◌, ◌-◌, ◌≤◌, OnErr, OnOk};
ghost use Rattle.calibration.specs.Gain.{GainValue};
ghost use Rattle.segment.specs.Segment.{AddsReadings, SameStart, SegmentValue, Stands, StandsFor};
ghost use Rattle.segment.specs.Joining.{IsJoinAnswer};
ghost use Rattle.segment.specs.Figures.{SameKept};

use super::Segment;
use four_point::residue_join::join_residue;
use std::error::Error;
use std::fmt;

/// Why a segment was not joined.
#[derive(Clone, Copy, Debug, PartialEq, Eq, Drop)]
pub enum JoinRefusal {
    /// It is of another gauge: the left one's and the right one's.
    OtherGauge(u16, u16),
    /// It does not begin where the left one ends.
    NotNext { to: u64, from: u64 },
}

impl fmt::Display for JoinRefusal {
    ghost use Rattle.segment.specs.Faults.{refusal_text};

    ghost output = { λ refusal. Some (refusal_text refusal) };

    fn fmt<W: fmt::Write>(&self, f: &mut fmt::Formatter<W>) -> fmt::Result {
        match self {
            JoinRefusal::OtherGauge(left, right) => {
                write!(f, "gauge {right} in place of {left}")
            }
            JoinRefusal::NotNext { to, from } => {
                write!(f, "begins at sample {from} in place of {to}")
            }
        }
    }
}

impl Error for JoinRefusal {}

impl Segment {
    // Appends the part that comes next.
    fn append(&mut self, right: &Segment)
        requires grid { self.old.grid ≡ right.now.grid }
        requires next { self.old.to ≡ right.now.from }
        requires longest { (self.old.to - self.old.from) + (right.now.to - right.now.from)
            ≤ self.old.longest }
        ensures start { SameStart self.old self.new }
        ensures end { self.new.to ≡ right.now.to }
        ensures readings { AddsReadings self.old right.now self.new }
        ensures histories { (g h : List ℕ) →
            StandsFor self.old g → StandsFor right.now h → StandsFor self.new (g ++ h) }
        ensures kept { (l : List SegmentValue) →
            SameKept (self.new ∷ l) (self.old ∷ right.now ∷ l) }
    {
        // What holds of every tally only a call of it tells; this costs nothing.
        let (_classes, _right) = (self.tally.classes(), right.tally.classes());
        self.tally.merge(&right.tally);
        join_residue(&mut self.reducer, right.reducer.residue(), &mut self.tally);
        self.crossings.join(&right.crossings);
        self.simple.join(&right.simple);
        self.used += right.used;
        self.missing += right.missing;
        self.refused += right.refused;
        self.to = right.to;
    }

    /// Joins the part that comes next: then this segment stands for the samples of both. After a
    /// refusal nothing has changed.
    pub fn join(&mut self, right: &Segment) -> Result<(), JoinRefusal>
        requires grid { self.old.grid ≡ right.now.grid }
        requires longest { self.old.gauge ≡ right.now.gauge → self.old.to ≡ right.now.from →
            (self.old.to - self.old.from) + (right.now.to - right.now.from) ≤ self.old.longest }
        ensures answer { IsJoinAnswer self.old right.now result }
        ensures unchanged { OnErr result (self.new ≡ self.old) }
        ensures start { OnOk result (SameStart self.old self.new) }
        ensures end { OnOk result (self.new.to ≡ right.now.to) }
        ensures readings { OnOk result (AddsReadings self.old right.now self.new) }
        ensures stands { OnOk result ((gain : GainValue) (g h : List ℤ) →
            Stands self.old gain g → Stands right.now gain h → Stands self.new gain (g ++ h)) }

        // Whatever they stand for, what is kept of a list of segments stays the same.
        ensures kept { OnOk result ((l : List SegmentValue) →
            SameKept (self.new ∷ l) (self.old ∷ right.now ∷ l)) }
    {
        if self.gauge != right.gauge {
            return Err(JoinRefusal::OtherGauge(self.gauge, right.gauge));
        }
        if self.to != right.from {
            return Err(JoinRefusal::NotNext {
                to: self.to,
                from: right.from,
            });
        }
        self.append(right);
        Ok(())
    }
}
