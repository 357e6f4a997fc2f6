ghost use Rattle.std.specs.Prelude.{◌≡◌, ℕ, ◌+◌, ◌*◌, ◌-◌, ◌<◌, ◌≤◌, ◌↔◌, ◌++◌, ◌∷◌, ◌⊎◌, [], List, IfOk, IsTrue, MatchBool, length};
ghost use Rattle.turning_points.specs.Points.{points};
ghost use Rattle.tally.specs.Counts.{count_of, total_of, HasGreatestRoom};
ghost use Rattle.four_point.specs.Reduction.{IsFourPointResult};

use crate::stack::{is_residue, push, push_point, put_first};
use std::alloc::{AllocError, Global};
use std::marker::Model;
use tally::{MAX_TOTAL, Tally};

/// The residue of a history of levels. Its cycles are counted in a tally of the caller.
#[derive(Debug, Drop)]
pub struct Reducer {
    classes: u16,
    levels: Vec<u16>,
    len: usize,
}

// Clauses see the number of classes and the residue.
impl Model for Reducer {
    ghost use Rattle.std.specs.Prelude.{take};
    ghost use Rattle.four_point.specs.Residue.{ReducerValue, IsStack};

    ghost Value = { ReducerValue };

    ghost view = { λ r. record { classes = r.classes; residue = take r.len r.levels.items } };

    ghost invariant = { λ r. IsStack r.classes r.levels.items r.len };
}

impl Reducer {
    ghost use Rattle.four_point.specs.Residue.{AddsCycles, IsResidue};

    /// A reducer with an empty residue. Reserves room for `2 * classes` levels, which is all that
    /// it ever needs.
    pub fn new(alloc: Global, classes: u16) -> Result<Reducer, AllocError>
        ensures { IfOk result (λ reducer. reducer ≡ record { classes = classes; residue = [] }) }
    {
        Ok(Reducer {
            classes,
            levels: vec![in alloc; 0; 2 * classes as usize]?,
            len: 0,
        })
    }

    /// The number of classes. Each level is below it.
    pub fn classes(&self) -> u16
        ensures { result ≡ self.now.classes }
    {
        self.classes
    }

    /// The levels that no deletion takes away, the oldest first.
    pub fn residue(&self) -> &[u16]
        ensures residue { result.now ≡ self.now.residue }
        ensures shape { IsResidue self.now.classes self.now.residue }
        ensures bound { length self.now.residue ≤ 2 * self.now.classes - 1 }
    {
        &self.levels[..self.len]
    }

    /// Takes the next level of the history, and adds the cycles that it closes to the tally. Takes
    /// no memory; a level that is deleted was put once, so a push takes a constant number of steps
    /// on average.
    #[inline(always)]
    pub fn push(&mut self, level: u16, tally: &mut Tally)
        requires level { level < self.old.classes }
        requires classes { self.old.classes ≡ tally.old.classes }
        requires total { total_of tally.old.cells + length self.old.residue ≤ MAX_TOTAL }
        requires room { HasGreatestRoom tally.old
            ⊎ (2 * length tally.old.cells + length self.old.residue ≤ 2 * tally.old.room) }

        // Where the residue was that of a history, it is that of the history with this level.
        ensures result { (h : List ℕ) (c : ℕ → ℕ → ℕ) →
            IsFourPointResult (points h) c self.old.residue →
            IsFourPointResult (points (h ++ level ∷ []))
            (λ lo hi. c lo hi + (count_of tally.new.cells lo hi - count_of tally.old.cells lo hi))
            self.new.residue }
        ensures step { AddsCycles (points (self.old.residue ++ level ∷ []))
            (count_of tally.old.cells)
            self.new.residue (count_of tally.new.cells) }
        ensures shape { IsResidue self.new.classes self.new.residue }
        ensures bound { length self.new.residue ≤ 2 * self.new.classes - 1 }

        // A cycle takes two levels away.
        ensures lengths { 2 * total_of tally.new.cells + length self.new.residue
            ≡ 2 * total_of tally.old.cells + length (points (self.old.residue ++ level ∷ [])) }
        ensures room { total_of tally.new.cells + length self.new.residue
            ≤ total_of tally.old.cells + length self.old.residue + 1 }
        // And it adds one cell at most.
        ensures cells { 2 * length tally.new.cells + length self.new.residue
            ≤ 2 * length tally.old.cells + length self.old.residue + 1 }
        ensures classes { self.new.classes ≡ self.old.classes }
        ensures tally_classes { tally.new.classes ≡ tally.old.classes }
        ensures tally_room { tally.new.room ≡ tally.old.room }
    {
        self.len = push(&mut self.levels, self.len, level, tally);
    }

    /// Takes the next level of the history where it is a point more, as the next of a list of
    /// points is: only deletions are tested, and not whether it goes on in the last direction.
    #[inline(always)]
    pub fn push_point(&mut self, level: u16, tally: &mut Tally)
        requires level { level < self.old.classes }
        requires more { length (points (self.old.residue ++ level ∷ [])) ≡
            length self.old.residue + 1 }
        requires classes { self.old.classes ≡ tally.old.classes }
        requires total { total_of tally.old.cells + length self.old.residue ≤ MAX_TOTAL }
        requires room { HasGreatestRoom tally.old
            ⊎ (2 * length tally.old.cells + length self.old.residue ≤ 2 * tally.old.room) }
        ensures step { AddsCycles (points (self.old.residue ++ level ∷ []))
            (count_of tally.old.cells)
            self.new.residue (count_of tally.new.cells) }
        ensures shape { IsResidue self.new.classes self.new.residue }
        ensures bound { length self.new.residue ≤ 2 * self.new.classes - 1 }
        ensures lengths { 2 * total_of tally.new.cells + length self.new.residue
            ≡ 2 * total_of tally.old.cells + length self.old.residue + 1 }
        ensures cells { 2 * length tally.new.cells + length self.new.residue
            ≤ 2 * length tally.old.cells + length self.old.residue + 1 }
        ensures classes { self.new.classes ≡ self.old.classes }
        ensures tally_classes { tally.new.classes ≡ tally.old.classes }
        ensures tally_room { tally.new.room ≡ tally.old.room }
    {
        self.len = push_point(&mut self.levels, self.len, level, tally);
    }

    /// Empties the residue.
    pub fn clear(&mut self)
        ensures { self.new ≡ record { classes = self.old.classes; residue = [] } }
    {
        self.len = 0;
    }

    /// Takes a residue in place of its own. The answer is false, and nothing changes, where a level
    /// is outside the classes, the list is not its own list of points, or a deletion applies.
    pub fn load(&mut self, residue: &[u16]) -> bool
        ensures accepted { IsTrue result ↔ IsResidue self.old.classes residue.now }
        ensures loaded { MatchBool result
            (self.new ≡ record { classes = self.old.classes; residue = residue.now })
            (self.new ≡ self.old) }
    {
        if residue.len() > self.levels.len() || !is_residue(residue, self.classes) {
            return false;
        }
        put_first(&mut self.levels, residue);
        self.len = residue.len();
        true
    }
}
