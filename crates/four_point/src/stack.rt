ghost use Rattle.std.specs.Prelude.{◌≡◌, ◌≢◌, ◌+◌, ◌*◌, ◌-◌, ◌<◌, ◌≤◌, ◌↔◌, ◌++◌, ◌∷◌, ◌⊎◌, [], All, IsTrue, length, slice_index, take};
ghost use Rattle.turning_points.specs.Points.{IsBetween, is_turn, points};
ghost use Rattle.turning_points.specs.Pairs.{range};
ghost use Rattle.tally.specs.Counts.{count_of, total_of, HasGreatestRoom};
ghost use Rattle.four_point.specs.Residue.{AddsCycles, HasNoCycleBelow, IsResidue, IsResidueBelow};

use tally::{MAX_TOTAL, Tally};
use turning_points::is_between;

/// Whether the inner two of four points are one full cycle.
// Points rise and fall in turn, so the two are not further apart than either of their neighbours'
// distances exactly where both lie between the outer two. Which side of the two is the lower one
// changes from point to point, so a processor foresees it.
#[inline(always)]
fn is_cycle(a: u16, b: u16, c: u16, d: u16) -> bool
    requires first { IsTrue (is_turn a b c) }
    requires second { IsTrue (is_turn b c d) }
    ensures { IsTrue result ↔ ((range b c ≤ range a b) × (range b c ≤ range c d)) }
{
    if b < c {
        d <= b && c <= a
    } else {
        b <= d && a <= c
    }
}

// Whether a level goes on in the direction from a point to the last one. Each of the three differs
// from the next, so that two comparisons tell it.
#[inline(always)]
fn lies_between(before: u16, last: u16, level: u16) -> bool
    requires direction { before ≢ last }
    requires change { last ≢ level }
    ensures { IsTrue result ↔ IsBetween before last level }
{
    (before < last) == (last < level)
}

// How many points there are with a level behind the first `len` levels, a list of points that ends
// at another level. The level is the last of them, and those before it stand where they stood.
#[inline(always)]
fn length_with_level(levels: &[u16], len: usize, level: u16) -> usize
    requires within { len < length levels.now }
    requires points { points (take len levels.now) ≡ take len levels.now }
    requires change { 0 < len → slice_index levels.now (len - 1) ≢ level }
    ensures some { 1 ≤ result }
    ensures within { result ≤ len + 1 }
    ensures points { take (result - 1) levels.now ++ level ∷ [] ≡
        points (take len levels.now ++ level ∷ []) }
{
    if len == 0 {
        return 1;
    }
    if len >= 2 && lies_between(levels[len - 2], levels[len - 1], level) {
        return len;
    }
    len + 1
}

/// Deletes cycles from the end of `len` points, the first `len - 1` levels and then `last`, and
/// says how many points are left.
// The last point stays out of the buffer until its place is known: what was just written would
// have to be read again at each step.
#[inline(always)]
fn delete_cycles(levels: &mut [u16], mut len: usize, last: u16, tally: &mut Tally) -> usize
    requires some { 1 ≤ len }
    requires within { len ≤ length levels.old }
    requires below { All (λ level. level < tally.old.classes) (take (len - 1) levels.old) }
    requires last { last < tally.old.classes }
    requires points { points (take (len - 1) levels.old ++ last ∷ []) ≡
        take (len - 1) levels.old ++ last ∷ [] }
    requires no_cycle { HasNoCycleBelow levels.old (len - 1) }
    requires total { total_of tally.old.cells + len ≤ MAX_TOTAL + 1 }
    requires room { HasGreatestRoom tally.old
        ⊎ (2 * length tally.old.cells + len ≤ 2 * tally.old.room + 1) }
    ensures within { result ≤ len }
    ensures cycles { AddsCycles (take (len - 1) levels.old ++ last ∷ []) (count_of tally.old.cells)
        (take result levels.new) (count_of tally.new.cells) }
    ensures below { All (λ level. level < tally.old.classes) (take result levels.new) }
    ensures points { points (take result levels.new) ≡ take result levels.new }
    ensures no_cycle { HasNoCycleBelow levels.new result }
    ensures lengths { 2 * total_of tally.new.cells + result ≡ 2 * total_of tally.old.cells + len }
    ensures cells { 2 * length tally.new.cells + result ≤ 2 * length tally.old.cells + len }
    ensures classes { tally.new.classes ≡ tally.old.classes }
    ensures tally_room { tally.new.room ≡ tally.old.room }
{
    while len >= 4 && is_cycle(levels[len - 4], levels[len - 3], levels[len - 2], last) {
        let b = levels[len - 3];
        let c = levels[len - 2];
        tally.add(b.min(c), b.max(c), 1);
        len -= 2;
    }
    levels[len - 1] = last;
    len
}

/// Puts a level behind the first `len` levels, a residue, deletes the cycles that it closes, and
/// says how many levels are left.
#[inline(always)]
pub fn push(levels: &mut [u16], len: usize, level: u16, tally: &mut Tally) -> usize
    requires within { len < length levels.old }
    requires residue { IsResidue tally.old.classes (take len levels.old) }
    requires level { level < tally.old.classes }
    requires total { total_of tally.old.cells + len ≤ MAX_TOTAL }
    requires room { HasGreatestRoom tally.old
        ⊎ (2 * length tally.old.cells + len ≤ 2 * tally.old.room) }
    ensures within { result ≤ length levels.new }
    ensures step { AddsCycles (points (take len levels.old ++ level ∷ []))
        (count_of tally.old.cells)
        (take result levels.new) (count_of tally.new.cells) }
    ensures residue { IsResidue tally.old.classes (take result levels.new) }
    ensures lengths { 2 * total_of tally.new.cells + result
        ≡ 2 * total_of tally.old.cells + length (points (take len levels.old ++ level ∷ [])) }
    ensures room { total_of tally.new.cells + result ≤ total_of tally.old.cells + len + 1 }
    ensures cells { 2 * length tally.new.cells + result ≤ 2 * length tally.old.cells + len + 1 }
    ensures classes { tally.new.classes ≡ tally.old.classes }
    ensures tally_room { tally.new.room ≡ tally.old.room }
{
    if len > 0 && levels[len - 1] == level {
        return len;
    }
    let longer = length_with_level(levels, len, level);
    delete_cycles(levels, longer, level, tally)
}

/// The same of a level that is one point more behind the residue: only deletions are tested.
#[inline(always)]
pub fn push_point(levels: &mut [u16], len: usize, level: u16, tally: &mut Tally) -> usize
    requires within { len < length levels.old }
    requires residue { IsResidue tally.old.classes (take len levels.old) }
    requires level { level < tally.old.classes }
    requires more { length (points (take len levels.old ++ level ∷ [])) ≡ len + 1 }
    requires total { total_of tally.old.cells + len ≤ MAX_TOTAL }
    requires room { HasGreatestRoom tally.old
        ⊎ (2 * length tally.old.cells + len ≤ 2 * tally.old.room) }
    ensures within { result ≤ length levels.new }
    ensures step { AddsCycles (points (take len levels.old ++ level ∷ []))
        (count_of tally.old.cells)
        (take result levels.new) (count_of tally.new.cells) }
    ensures residue { IsResidue tally.old.classes (take result levels.new) }
    ensures lengths { 2 * total_of tally.new.cells + result
        ≡ 2 * total_of tally.old.cells + (len + 1) }
    ensures cells { 2 * length tally.new.cells + result ≤ 2 * length tally.old.cells + len + 1 }
    ensures classes { tally.new.classes ≡ tally.old.classes }
    ensures tally_room { tally.new.room ≡ tally.old.room }
{
    delete_cycles(levels, len + 1, level, tally)
}

// Whether the level at `i` goes on a residue, the levels before it.
fn goes_behind(levels: &[u16], i: usize, classes: u16) -> bool
    requires within { i < length levels.now }
    requires before { IsResidueBelow classes levels.now i }
    ensures { IsTrue result ↔ IsResidueBelow classes levels.now (i + 1) }
{
    let level = levels[i];
    if level >= classes {
        return false;
    }
    if i == 0 {
        return true;
    }
    let last = levels[i - 1];
    if last == level {
        return false;
    }
    if i == 1 {
        return true;
    }
    if is_between(levels[i - 2], last, level) {
        return false;
    }
    i == 2 || !is_cycle(levels[i - 3], levels[i - 2], last, level)
}

/// Whether the levels are a list of points over so many classes to which no deletion applies.
pub fn is_residue(levels: &[u16], classes: u16) -> bool
    ensures { IsTrue result ↔ IsResidue classes levels.now }
{
    for i in 0..levels.len() {
        if !goes_behind(levels, i, classes) {
            return false;
        }
    }
    true
}

/// Copies a list to the front of a buffer.
pub fn put_first(levels: &mut [u16], list: &[u16])
    requires { length list.now ≤ length levels.old }
    ensures { take (length list.now) levels.new ≡ list.now }
{
    levels[..list.len()].copy_from_slice(list);
}
