ghost use Rattle.std.specs.Prelude.{◌≡◌, ◌⊎◌, [], ◌+◌, ◌*◌, ◌<◌, ◌≤◌, All, length, take};
ghost use Rattle.calibration.specs.History.{history, missing_count, refused_count};
ghost use Rattle.turning_points.specs.Points.{points};
ghost use Rattle.tally.specs.Counts.{count_of, total_of, HasGreatestRoom};
ghost use Rattle.tally.specs.declared.cells.TheConstants.{MAX_TOTAL};
ghost use Rattle.four_point.specs.Residue.{AddsCycles, IsResidue};

use calibration::Classifier;
use four_point::Reducer;
use tally::{MAX_TOTAL, Tally};
use turning_points::keep_points;

/// How many samples of a block are of each kind, and how many points their levels have.
#[derive(Clone, Copy)]
pub struct Block {
    pub points: usize,
    pub used: usize,
    pub missing: usize,
    pub refused: usize,
}

/// Puts the points of the samples' level history to the front of `levels`, in order.
pub fn points_in(raws: &[i32], classifier: &Classifier, levels: &mut [u16]) -> Block
    requires room { length raws.now ≤ length levels.old }
    ensures points { take result.points levels.new ≡
        points (history classifier.now.grid classifier.now.gain raws.now) }
    ensures used { result.used ≡
        length (history classifier.now.grid classifier.now.gain raws.now) }
    ensures within { result.points ≤ result.used }
    ensures missing { result.missing ≡
        missing_count classifier.now.grid classifier.now.gain raws.now }
    ensures refused { result.refused ≡
        refused_count classifier.now.grid classifier.now.gain raws.now }
    ensures sum { result.used + result.missing + result.refused ≡ length raws.now }
    ensures length { length levels.new ≡ length levels.old }
{
    let kinds = classifier.levels(raws, levels);
    let points = keep_points(&mut levels[..kinds.used]);
    Block {
        points,
        used: kinds.used,
        missing: kinds.missing,
        refused: kinds.refused,
    }
}

/// Reduces a list of points, each of which is one point more. Nothing was reduced or counted
/// before.
pub fn push_points(reducer: &mut Reducer, tally: &mut Tally, list: &[u16])
    requires residue { reducer.old.residue ≡ [] }
    requires cells { tally.old.cells ≡ [] }
    requires classes { reducer.old.classes ≡ tally.old.classes }
    requires own { points list.now ≡ list.now }
    requires below { All (λ level. level < reducer.old.classes) list.now }
    requires few { length list.now ≤ MAX_TOTAL }
    requires room { HasGreatestRoom tally.old ⊎ (length list.now ≤ 2 * tally.old.room + 1) }
    ensures step { AddsCycles list.now (λ lo hi. 0) reducer.new.residue (count_of tally.new.cells) }
    ensures lengths { 2 * total_of tally.new.cells + length reducer.new.residue ≡ length list.now }
    ensures shape { IsResidue reducer.new.classes reducer.new.residue }
    ensures classes { reducer.new.classes ≡ reducer.old.classes }
    ensures tally_classes { tally.new.classes ≡ tally.old.classes }
    ensures tally_room { tally.new.room ≡ tally.old.room }
{
    for &level in list {
        reducer.push_point(level, tally);
    }
}
