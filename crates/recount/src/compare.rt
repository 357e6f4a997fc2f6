ghost use Rattle.std.specs.Prelude.{◌≡◌, ◌≢◌, ◌<◌, ◌+◌, ℤ, List, MatchOption, Some, length, slice_index};
ghost use Rattle.calibration.specs.Gain.{GainValue};
ghost use Rattle.calibration.specs.History.{history};
ghost use Rattle.calibration.specs.declared.grid.TheConstants.{MAX_CLASSES};
ghost use Rattle.turning_points.specs.three_point.Run.{three_point};
ghost use Rattle.tally.specs.Counts.{count_of};
ghost use Rattle.segment.specs.Counts.{kinds_of};
ghost use Rattle.segment.specs.Figures.{halves_of};
ghost use Rattle.recount.specs.Counted.{IsRecount};
ghost use Rattle.recount.specs.Compared.{AreSame, AreSameFrom, Compares, IsCellOther};

use crate::count::Recount;
use calibration::MAX_CLASSES;
use segment::Segment;
use tally::Tally;

/// What a segment and a recount differ in: the number of samples that were used, are missing or
/// were refused, or the half units of a pair of levels.
#[derive(Clone, Copy, Debug, PartialEq, Eq)]
pub enum What {
    Used,
    Missing,
    Refused,
    Cell(u16, u16),
}

/// What a segment keeps, and what the recount found.
#[derive(Clone, Copy, Debug, PartialEq, Eq)]
pub struct Difference {
    pub what: What,
    pub held: u64,
    pub found: u64,
}

/// The first difference between what a segment keeps and what a recount found: of the samples used,
/// missing and refused, and then of the half units, by the lower level and then by the higher one.
/// Takes no memory, and a step for each pair of levels.
pub fn first_difference(segment: &Segment, recount: &Recount) -> Option<Difference>
    requires classes { recount.now.pairs.classes ≡ segment.now.grid.classes }
    ensures { (gain : GainValue) (w : List ℤ) → IsRecount segment.now.grid gain recount.now w →
        Compares segment.now (kinds_of segment.now.grid gain w)
        (three_point (history segment.now.grid gain w)) result }
{
    let found = &recount.counts;
    if segment.used() != found.used {
        return some_difference(What::Used, segment.used(), found.used);
    }
    if segment.missing() != found.missing {
        return some_difference(What::Missing, segment.missing(), found.missing);
    }
    if segment.refused() != found.refused {
        return some_difference(What::Refused, segment.refused(), found.refused);
    }
    first_other_cell(segment, recount.pairs.tally())
}

fn some_difference(what: What, held: u64, found: u64) -> Option<Difference>
    ensures { result ≡ Some (record { what = what; held = held; found = found }) }
{
    Some(Difference { what, held, found })
}

// The first pair whose half units are others in a segment than in a tally, and both.
fn first_other_cell(segment: &Segment, found: &Tally) -> Option<Difference>
    requires classes { found.now.classes ≡ segment.now.grid.classes }
    ensures { MatchOption result
        (AreSame segment.now.grid.classes (halves_of segment.now) (count_of found.now.cells))
        (IsCellOther segment.now.grid.classes (halves_of segment.now) (count_of found.now.cells)) }
{
    let classes = segment.grid().classes();
    let mut row = [0; MAX_CLASSES as usize];
    let held = &mut row[..usize::from(classes)];
    for lo in 0..classes {
        segment.halves_above(lo, held);
        if let Some(hi) = first_other(held, found, lo) {
            return some_difference(What::Cell(lo, hi), held[usize::from(hi)], found.get(lo, hi));
        }
    }
    None
}

// The first level above `lo` at which a row has other half units than a tally.
fn first_other(row: &[u64], found: &Tally, lo: u16) -> Option<u16>
    requires level { lo < found.now.classes }
    requires classes { length row.now ≡ found.now.classes }
    ensures { MatchOption result
        (AreSameFrom lo (length row.now) (slice_index row.now) (count_of found.now.cells lo))
        (λ hi. (lo < hi) × ((hi < length row.now) ×
        ((slice_index row.now hi ≢ count_of found.now.cells lo hi) ×
        AreSameFrom lo hi (slice_index row.now) (count_of found.now.cells lo)))) }
{
    let classes = found.classes();
    for hi in lo + 1..classes {
        if row[usize::from(hi)] != found.get(lo, hi) {
            return Some(hi);
        }
    }
    None
}
