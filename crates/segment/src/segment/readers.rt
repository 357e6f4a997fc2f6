ghost use Rattle.std.specs.Prelude.{◌≡◌};
ghost use Rattle.turning_points.specs.Ends.{end_points};
ghost use Rattle.segment.specs.segment_rules.Rules.{AreSegmentParts};
ghost use Rattle.segment.specs.Parts.{parts_of};
ghost use Rattle.segment.specs.Segment.{IsSegment};

use super::Segment;
use crate::segment_rules::Name;
use calibration::Grid;
use turning_points::Ends;

impl Segment {
    /// The grid of its classes.
    pub fn grid(&self) -> Grid
        ensures value { result ≡ self.now.grid }
        ensures rules { IsSegment self.now }
        ensures parts { AreSegmentParts self.now.grid (parts_of self.now) }
    {
        // What holds of every tally only a call of it tells; this costs nothing.
        let _classes = self.tally.classes();
        self.grid.grid()
    }

    /// The samples that it is of.
    pub fn name(&self) -> Name
        ensures value { result ≡
            record { gauge = self.now.gauge; from = self.now.from; to = self.now.to } }
        ensures rules { IsSegment self.now }
    {
        Name {
            gauge: self.gauge,
            from: self.from,
            to: self.to,
        }
    }

    /// The most samples that it may come to.
    pub fn longest(&self) -> u64
        ensures { result ≡ self.now.longest }
    {
        self.longest
    }

    /// The samples that have a level.
    pub fn used(&self) -> u64
        ensures { result ≡ self.now.used }
    {
        self.used
    }

    /// The samples without a reading.
    pub fn missing(&self) -> u64
        ensures { result ≡ self.now.missing }
    {
        self.missing
    }

    /// The samples outside the classes.
    pub fn refused(&self) -> u64
        ensures { result ≡ self.now.refused }
    {
        self.refused
    }

    /// The number of points of its level history, the first two and the last two.
    pub fn ends(&self) -> Ends
        ensures { end_points result ≡ self.now.simple.ends }
    {
        self.simple.ends()
    }

    /// The levels that no deletion takes away.
    pub fn residue(&self) -> &[u16]
        ensures residue { result.now ≡ self.now.reducer.residue }
        ensures rules { IsSegment self.now }
    {
        self.reducer.residue()
    }
}
