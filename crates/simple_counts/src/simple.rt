ghost use Rattle.std.specs.Prelude.{All, List, [], ◌∷◌, ◌++◌, ◌+◌, ◌-◌, ◌<◌, ◌≡◌, ◌≤◌, ◌^◌, nat_le, length, slice_index, sum, IfOk, ◌&&◌, ℕ, replicate};
ghost use Rattle.turning_points.specs.Points.{is_turn, points};
ghost use Rattle.turning_points.specs.Pairs.{range};
ghost use Rattle.turning_points.specs.EndPoints.{IsEnds, ends_of, ends_push, ends_of_both, no_ends};
ghost use Rattle.turning_points.specs.Ends.{end_points};
ghost use Rattle.simple_counts.specs.level_crossing.Crossings.{Crosses, CrossesPoints, IsCrossings, no_crossings};
ghost use Rattle.tally.specs.tables.Tables.{table_with_bins, raise};
ghost use Rattle.tally.specs.tables.Bins.{count_at};
ghost use Rattle.simple_counts.specs.Loading.{CanLoad, decided_of, last_range, loaded_of};
ghost use Rattle.simple_counts.specs.Simple.{SimpleValue, CountsHistory, IsSimple, decide, decide_join, join_of, mark, mark_join, nothing, peak_count, peaks_at, push_of, range_count, ranges_at, turns_at, valley_count, valleys_at};
ghost use Rattle.simple_counts.specs.level_crossing.Extremes.{is_extreme};
ghost use Rattle.turning_points.specs.declared.ends.TheConstants.{MAX_POINTS};

use crate::level_crossing::Crossings;
use crate::points::fill;
use calibration::Grid;
use std::alloc::{AllocError, Global};
use std::marker::Model;
use tally::Bin;
use tally::tables::{add_if, add_to, empty, fill as fill_bins, lower, raise};
use turning_points::{Ends, ends_of, join_ends, no_ends, put_before, put_behind};

/// Counts of simple ranges, peaks and valleys of a history. The last range is not in the table
/// while it may grow.
#[derive(Drop)]
pub struct Simple {
    classes: u16,
    reference: u16,
    ends: Ends,
    decided: Vec<u64>,
    extremes: Vec<u64>,
}

impl Model for Simple {
    ghost use Rattle.simple_counts.specs.Simple.{SimpleValue, IsSimple};
    ghost use Rattle.turning_points.specs.Ends.{end_points};

    ghost Value = { SimpleValue };

    ghost view = { λ s. record {
      classes = s.classes;
      reference = s.reference;
      ends = end_points s.ends;
      decided = s.decided.items;
      extremes = s.extremes.items;
    } };

    ghost invariant = { λ s. IsSimple (record {
      classes = s.classes;
      reference = s.reference;
      ends = end_points s.ends;
      decided = s.decided.items;
      extremes = s.extremes.items;
    }) };
}

// Whether `level` is greater than both, or less than both.
fn is_turning(before: u16, level: u16, after: u16) -> bool
    ensures { result ≡ is_turn before level after }
{
    (before < level && after < level) || (level < before && level < after)
}

// Whether `b`, between `a` and `c`, counts as an extreme.
#[inline(always)]
fn is_extreme(reference: u16, a: u16, b: u16, c: u16) -> bool
    ensures { result ≡ is_extreme reference a b c }
{
    if reference <= b {
        a < b && c < b
    } else {
        b < a && b < c
    }
}

/// The distance of two levels.
#[inline(always)]
pub fn range(a: u16, b: u16) -> usize
    ensures { result ≡ range a b }
{
    usize::from(a.abs_diff(b))
}

// What putting a level before does to the ranges.
fn decide(decided: &mut [u64], level: u16, e: &Ends)
    requires ends { IsEnds (length decided.old) (end_points e.now) }
    requires level { level < length decided.old }
    requires first { 3 ≤ e.now.points →
        1 ≤ slice_index decided.old (range (end_points e.now).first (end_points e.now).second) }
    requires room { (k : ℕ) → slice_index decided.old k < 2 ^ 62 }
    ensures { decided.new ≡ decide level (end_points e.now) decided.old }
{
    if e.points < 2 {
        return;
    }
    if level == e.first[0] {
        return;
    }
    if is_turning(level, e.first[0], e.first[1]) {
        raise(decided, range(level, e.first[0]));
        return;
    }
    if e.points == 2 {
        return;
    }
    lower(decided, range(e.first[0], e.first[1]));
    raise(decided, range(level, e.first[1]));
}

// What putting a level before does to the extremes.
fn mark(extremes: &mut [u64], reference: u16, level: u16, e: &Ends)
    requires ends { IsEnds (length extremes.old) (end_points e.now) }
    requires room { (k : ℕ) → slice_index extremes.old k < 2 ^ 62 }
    ensures { extremes.new ≡ mark reference level (end_points e.now) extremes.old }
{
    if e.points < 2 {
        return;
    }
    if level == e.first[0] {
        return;
    }
    if is_extreme(reference, level, e.first[0], e.first[1]) {
        raise(extremes, usize::from(e.first[0]));
    }
}

// Changes the tables of two parts, added, to those of one after the other.
fn join_tables(decided: &mut [u64], extremes: &mut [u64], reference: u16, left: &Ends, right: &Ends)
    requires left { IsEnds (length decided.old) (end_points left.now) }
    requires right { IsEnds (length decided.old) (end_points right.now) }
    requires same { length extremes.old ≡ length decided.old }
    requires first { 3 ≤ right.now.points →
        1 ≤ slice_index decided.old (range (end_points right.now).first (end_points
        right.now).second) }
    requires enough { right.now.points - 2 ≤ sum decided.old }
    requires few { right.now.points < 2 ^ 61 }
    requires room { sum decided.old < 2 ^ 61 }
    requires space { sum extremes.old < 2 ^ 61 }
    ensures decided { decided.new ≡
        decide_join (end_points left.now) (end_points right.now) decided.old }
    ensures extremes { extremes.new ≡
        mark_join reference (end_points left.now) (end_points right.now) extremes.old }
{
    if left.points == 0 {
        return;
    }
    let last = left.last[1];
    decide(decided, last, right);
    mark(extremes, reference, last, right);
    if left.points == 1 {
        return;
    }
    let before = left.last[0];
    let joined = put_before(last, right);
    decide(decided, before, &joined);
    mark(extremes, reference, before, &joined);
}

// `join_tables` for vectors.
fn join_in(
    decided: &mut Vec<u64>,
    extremes: &mut Vec<u64>,
    reference: u16,
    left: &Ends,
    right: &Ends,
)
    requires left { IsEnds (length decided.old.items) (end_points left.now) }
    requires right { IsEnds (length decided.old.items) (end_points right.now) }
    requires same { length extremes.old.items ≡ length decided.old.items }
    requires first { 3 ≤ right.now.points →
        1 ≤ slice_index decided.old.items (range (end_points right.now).first (end_points
        right.now).second) }
    requires enough { right.now.points - 2 ≤ sum decided.old.items }
    requires few { right.now.points < 2 ^ 61 }
    requires room { sum decided.old.items < 2 ^ 61 }
    requires space { sum extremes.old.items < 2 ^ 61 }
    ensures decided { decided.new.items ≡
        decide_join (end_points left.now) (end_points right.now) decided.old.items }
    ensures extremes { extremes.new.items ≡
        mark_join reference (end_points left.now) (end_points right.now) extremes.old.items }
{
    join_tables(decided, extremes, reference, left, right);
}

// Whether a level that comes next makes the last point a turn.
fn turns(level: u16, e: &Ends) -> bool
    ensures { result ≡ turns_at level (end_points e.now) }
{
    e.points >= 2 && is_turning(e.last[0], e.last[1], level)
}

// Whether it makes the last point an extreme.
fn decides_extreme(reference: u16, level: u16, e: &Ends) -> bool
    ensures { result ≡ (nat_le 2 e.now.points && is_extreme reference (end_points e.now).before
        (end_points e.now).last level) }
{
    e.points >= 2 && is_extreme(reference, e.last[0], e.last[1], level)
}

// The ranges but the last one.
fn load_ranges(table: &mut Vec<u64>, ends: &Ends, ranges: &[Bin])
    requires within { All (λ b. b.key + 0 < length table.old.items) ranges.now }
    requires last { 2 ≤ ends.now.points →
        1 ≤ slice_index (table_with_bins 0 (replicate (length table.old.items) 0) ranges.now)
        (last_range (end_points ends.now)) }
    requires below { last_range (end_points ends.now) < length table.old.items }
    ensures { table.new.items ≡
        decided_of (length table.old.items) (end_points ends.now) ranges.now }
{
    empty(table);
    fill_bins(table, 0, ranges);
    if 2 <= ends.points {
        lower(table, range(ends.last[0], ends.last[1]));
    }
}

fn load_extremes(table: &mut Vec<u64>, peaks: &[Bin], valleys: &[Bin])
    requires peaks { All (λ b. b.key + 0 < length table.old.items) peaks.now }
    requires valleys { All (λ b. b.key + 0 < length table.old.items) valleys.now }
    ensures { table.new.items ≡
        table_with_bins 0 (table_with_bins 0 (replicate (length table.old.items) 0) valleys.now)
        peaks.now }
{
    empty(table);
    fill_bins(table, 0, valleys);
    fill_bins(table, 0, peaks);
}

impl Simple {
    /// The ends of the history.
    pub fn ends(&self) -> Ends
        ensures ends { end_points result ≡ self.now.ends }
        ensures rules { IsSimple self.now }
    {
        self.ends
    }

    // The two, one after the other; what the value is then.
    fn append_history(&mut self, right: &Simple)
        requires classes { self.old.classes ≡ right.now.classes }
        requires room { self.old.ends.points + right.now.ends.points ≤ MAX_POINTS }
        ensures value { self.new ≡ join_of self.old right.now }
        ensures left { IsSimple self.old }
        ensures right { IsSimple right.now }
    {
        let left = self.ends;
        add_to(&mut self.decided, &right.decided);
        add_to(&mut self.extremes, &right.extremes);
        join_in(
            &mut self.decided,
            &mut self.extremes,
            self.reference,
            &left,
            &right.ends,
        );
        let ends = join_ends(&left, &right.ends);
        self.ends = ends;
    }

    /// Appends the other's history.
    pub fn join(&mut self, right: &Simple)
        requires classes { self.old.classes ≡ right.now.classes }
        requires reference { self.old.reference ≡ right.now.reference }
        requires room { self.old.ends.points + right.now.ends.points ≤ MAX_POINTS }
        ensures grid { (self.new.classes ≡ self.old.classes)
            × (self.new.reference ≡ self.old.reference) }
        ensures ends { self.new.ends ≡ ends_of_both self.old.ends right.now.ends }
        ensures rules { IsSimple self.new }
        ensures histories { (u v : List ℕ) → CountsHistory self.old u → CountsHistory right.now v →
            CountsHistory self.new (u ++ v) }
    {
        self.append_history(right)
    }

    // One level more; what the value is then.
    fn push_level(&mut self, level: u16)
        requires level { level < self.old.classes }
        requires room { self.old.ends.points + 1 ≤ MAX_POINTS }
        ensures value { self.new ≡ push_of level self.old }
        ensures rules { IsSimple self.old }
    {
        let e = self.ends;
        let turns = turns(level, &e);
        let extreme = decides_extreme(self.reference, level, &e);
        add_if(&mut self.decided, range(e.last[0], e.last[1]), turns);
        add_if(&mut self.extremes, usize::from(e.last[1]), extreme);
        let ends = put_behind(level, &e);
        self.ends = ends;
    }

    /// One level more.
    pub fn push(&mut self, level: u16)
        requires level { level < self.old.classes }
        requires room { self.old.ends.points + 1 ≤ MAX_POINTS }
        ensures grid { (self.new.classes ≡ self.old.classes)
            × (self.new.reference ≡ self.old.reference) }
        ensures ends { self.new.ends ≡ ends_push level self.old.ends }
        ensures rules { IsSimple self.new }
        ensures histories { (u : List ℕ) → CountsHistory self.old u →
            CountsHistory self.new (u ++ level ∷ []) }
    {
        self.push_level(level)
    }

    /// Counts a history by its points, and its crossings in the same pass. Nothing was counted
    /// before in either.
    pub fn take_points(&mut self, list: &[u16], crossings: &mut Crossings)
        requires empty { self.old ≡ nothing self.old.classes self.old.reference }
        requires uncrossed { crossings.old ≡ no_crossings self.old.classes self.old.reference }
        requires own { points list.now ≡ list.now }
        requires below { All (λ level. level < self.old.classes) list.now }
        requires few { length list.now ≤ MAX_POINTS }
        ensures grid { (self.new.classes ≡ self.old.classes)
            × (self.new.reference ≡ self.old.reference) }
        ensures ends { self.new.ends ≡ ends_of list.now }
        ensures rules { IsSimple self.new }
        ensures histories { (h : List ℕ) → points h ≡ list.now → CountsHistory self.new h }
        ensures crossings { CrossesPoints crossings.new
            crossings.old.classes crossings.old.reference list.now }
        ensures crossing_rules { IsCrossings crossings.new }
        ensures crossing_histories { (h : List ℕ) → points h ≡ list.now → Crosses crossings.new h }
    {
        crossings.take_points(list, &mut self.extremes);
        fill(&mut self.decided, list);
        self.ends = ends_of(list);
    }

    // Takes ends and counts in place of its own; what the value is then.
    fn replace_by(&mut self, ends: &Ends, peaks: &[Bin], valleys: &[Bin], ranges: &[Bin])
        requires { CanLoad self.old.classes self.old.reference (end_points ends.now) peaks.now
            valleys.now ranges.now }
        ensures value { self.new ≡ loaded_of self.old.classes self.old.reference (end_points
            ends.now)
            peaks.now valleys.now ranges.now }
        ensures rules { IsSimple self.old }
    {
        load_ranges(&mut self.decided, ends, ranges);
        load_extremes(&mut self.extremes, peaks, valleys);
        self.ends = *ends;
    }

    /// Takes the ends of a history and its counts in place of its own.
    pub fn load(&mut self, ends: &Ends, peaks: &[Bin], valleys: &[Bin], ranges: &[Bin])
        requires { CanLoad self.old.classes self.old.reference (end_points ends.now) peaks.now
            valleys.now ranges.now }
        ensures grid { (self.new.classes ≡ self.old.classes)
            × (self.new.reference ≡ self.old.reference) }
        ensures ends { self.new.ends ≡ end_points ends.now }
        ensures ranges { (k : ℕ) → range_count self.new k ≡ count_at k ranges.now }
        ensures peaks { (l : ℕ) → peak_count self.new l ≡ count_at l peaks.now }
        ensures valleys { (l : ℕ) → valley_count self.new l ≡ count_at l valleys.now }
        ensures rules { IsSimple self.new }
    {
        self.replace_by(ends, peaks, valleys, ranges)
    }

    /// Nothing counted any more.
    pub fn clear(&mut self)
        ensures empty { self.new ≡ nothing self.old.classes self.old.reference }
        ensures rules { IsSimple self.new }
    {
        empty(&mut self.decided);
        empty(&mut self.extremes);
        self.ends = no_ends();
    }

    /// Nothing counted.
    pub fn new(alloc: Global, grid: &Grid) -> Result<Simple, AllocError>
        ensures value { IfOk result (λ s. s ≡ nothing grid.now.classes grid.now.reference) }
        ensures rules { IfOk result (λ s. IsSimple s) }
    {
        let classes = grid.classes();
        let reference = grid.reference();
        let decided = vec![in alloc; 0; usize::from(classes)]?;
        let extremes = vec![in alloc; 0; usize::from(classes)]?;
        Ok(Simple {
            classes,
            reference,
            ends: no_ends(),
            decided,
            extremes,
        })
    }

    /// The simple ranges at a distance.
    pub fn half_ranges(&self, k: u16) -> u64
        requires { k < self.now.classes }
        ensures value { result ≡ range_count self.now k }
        ensures histories { (u : List ℕ) → CountsHistory self.now u →
            result ≡ ranges_at k (points u) }
    {
        self.ranges_there(k)
    }

    /// The peaks at a level.
    pub fn peaks(&self, level: u16) -> u64
        requires { level < self.now.classes }
        ensures value { result ≡ peak_count self.now level }
        ensures histories { (u : List ℕ) → CountsHistory self.now u →
            result ≡ peaks_at self.now.reference level (points u) }
    {
        self.peaks_there(level)
    }

    /// The valleys at a level.
    pub fn valleys(&self, level: u16) -> u64
        requires { level < self.now.classes }
        ensures value { result ≡ valley_count self.now level }
        ensures histories { (u : List ℕ) → CountsHistory self.now u →
            result ≡ valleys_at self.now.reference level (points u) }
    {
        self.valleys_there(level)
    }

    fn ranges_there(&self, k: u16) -> u64
        requires { k < self.now.classes }
        ensures { result ≡ range_count self.now k }
    {
        let open = self.ends.points >= 2
            && range(self.ends.last[0], self.ends.last[1]) == usize::from(k);
        self.decided[usize::from(k)] + u64::from(open)
    }

    fn peaks_there(&self, level: u16) -> u64
        requires { level < self.now.classes }
        ensures { result ≡ peak_count self.now level }
    {
        if level >= self.reference {
            self.extremes[usize::from(level)]
        } else {
            0
        }
    }

    fn valleys_there(&self, level: u16) -> u64
        requires { level < self.now.classes }
        ensures { result ≡ valley_count self.now level }
    {
        if level >= self.reference {
            0
        } else {
            self.extremes[usize::from(level)]
        }
    }
}
