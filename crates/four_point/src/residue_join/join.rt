ghost use Rattle.std.specs.Prelude.{◌≡◌, ℕ, ◌+◌, ◌*◌, ◌-◌, ◌≤◌, ◌++◌, ◌⊎◌, List, length};
ghost use Rattle.turning_points.specs.Points.{points};
ghost use Rattle.tally.specs.Counts.{count_of, total_of, HasGreatestRoom};
ghost use Rattle.four_point.specs.Reduction.{IsFourPointResult};
ghost use Rattle.four_point.specs.Residue.{AddsCycles, IsResidue};

use crate::Reducer;
use tally::{MAX_TOTAL, Tally};

/// Joins the residue of the part of a history that comes next to that of the part before it, and
/// adds the cycles that neither part had to the tally. Takes no memory, and time in proportion to
/// the two lengths.
pub fn join_residue(left: &mut Reducer, right: &[u16], tally: &mut Tally)
    requires residue { IsResidue left.old.classes right.now }
    requires classes { left.old.classes ≡ tally.old.classes }
    requires total { total_of tally.old.cells + length left.old.residue + length right.now ≤
        MAX_TOTAL }
    requires room { HasGreatestRoom tally.old
        ⊎ (2 * length tally.old.cells + length left.old.residue + length right.now ≤
        2 * tally.old.room + 1) }

    // Where the two were the residues of histories, the left one is that of their concatenation.
    ensures result { (u v : List ℕ) (c d : ℕ → ℕ → ℕ) →
        IsFourPointResult (points u) c left.old.residue → IsFourPointResult (points v) d right.now →
        IsFourPointResult (points (u ++ v))
        (λ lo hi. c lo hi + d lo hi +
        (count_of tally.new.cells lo hi - count_of tally.old.cells lo hi))
        left.new.residue }
    ensures step { AddsCycles (points (left.old.residue ++ right.now)) (count_of tally.old.cells)
        left.new.residue (count_of tally.new.cells) }
    ensures shape { IsResidue left.new.classes left.new.residue }
    ensures bound { length left.new.residue ≤ 2 * left.new.classes - 1 }

    // A cycle takes two levels away.
    ensures lengths { 2 * total_of tally.new.cells + length left.new.residue
        ≡ 2 * total_of tally.old.cells + length (points (left.old.residue ++ right.now)) }
    ensures room { total_of tally.new.cells + length left.new.residue
        ≤ total_of tally.old.cells + length left.old.residue + length right.now }
    // And each adds one cell at most.
    ensures cells { 2 * length tally.new.cells + length left.new.residue
        ≤ 2 * length tally.old.cells + length left.old.residue + length right.now }
    ensures classes { left.new.classes ≡ left.old.classes }
    ensures tally_classes { tally.new.classes ≡ tally.old.classes }
    ensures tally_room { tally.new.room ≡ tally.old.room }
{
    // That the left's levels are a residue too only a call can say; it costs nothing.
    let _left = left.residue();
    for &level in right {
        left.push(level, tally);
    }
}
