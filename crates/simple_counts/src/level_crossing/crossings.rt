ghost use Rattle.std.specs.Prelude.{All, replicate, true, List, [], ◌∷◌, ◌++◌, ◌+◌, ◌-◌, ◌<◌, ◌≡◌, ◌≤◌, ◌^◌, ◌&&◌, ◌||◌, if◌then◌else◌, length, slice_index, sum, take, IfOk, ℕ};
ghost use Rattle.turning_points.specs.Points.{points};
ghost use Rattle.tally.specs.tables.Tables.{table_with_bins};
ghost use Rattle.tally.specs.tables.Bins.{count_at};
ghost use Rattle.turning_points.specs.Ends.{end_points};
ghost use Rattle.turning_points.specs.EndPoints.{last_point};
ghost use Rattle.simple_counts.specs.level_crossing.Loading.{CanLoadCrossings, HasEnds, loaded_of};
ghost use Rattle.simple_counts.specs.level_crossing.Crossings.{Crosses, IsCrossings, join_of, begin_step, joint_crossings, crossing_count, crossings, start_level, highest_boundary, has_level, push_of, lowest_boundary, no_crossings, stop_step};
ghost use Rattle.simple_counts.specs.level_crossing.Extremes.{extremes_at};
ghost use Rattle.turning_points.specs.declared.ends.TheConstants.{MAX_POINTS};

use crate::level_crossing::points::{fill, first_level, has_some, last_level};
use calibration::Grid;
use std::alloc::{AllocError, Global};
use std::marker::Model;
use tally::Bin;
use tally::tables::{add_to, empty, fill as fill_bins, raise};
use turning_points::Ends;

/// How often a history crossed each boundary, as a table of differences.
#[derive(Drop)]
pub struct Crossings {
    classes: u16,
    reference: u16,
    some: bool,
    first: u16,
    last: u16,
    begins: Vec<u64>,
    stops: Vec<u64>,
}

impl Model for Crossings {
    ghost use Rattle.simple_counts.specs.level_crossing.Crossings.{CrossingsValue, IsCrossings};

    ghost Value = { CrossingsValue };

    ghost view = { λ s. record {
      classes = s.classes;
      reference = s.reference;
      some = s.some;
      first = s.first;
      last = s.last;
      begins = s.begins.items;
      stops = s.stops.items;
    } };

    ghost invariant = { λ s. IsCrossings (record {
      classes = s.classes;
      reference = s.reference;
      some = s.some;
      first = s.first;
      last = s.last;
      begins = s.begins.items;
      stops = s.stops.items;
    }) };
}

// The boundaries that a step crosses.
fn lowest_boundary(reference: u16, x: u16, y: u16) -> usize
    ensures { result ≡ lowest_boundary reference x y }
{
    if x < y {
        (usize::from(x) + 1).max(usize::from(reference))
    } else {
        usize::from(y) + 1
    }
}

fn highest_boundary(reference: u16, x: u16, y: u16) -> usize
    requires { 1 ≤ reference }
    ensures { result ≡ highest_boundary reference x y }
{
    if x < y {
        usize::from(y)
    } else {
        usize::from(x).min(usize::from(reference) - 1)
    }
}

// The step from `x` to `y`, if there is one.
fn step(begins: &mut [u64], stops: &mut [u64], yes: bool, reference: u16, x: u16, y: u16)
    requires reference { 1 ≤ reference }
    requires x { x + 1 < length begins.old }
    requires y { y + 1 < length begins.old }
    requires same { length stops.old ≡ length begins.old }
    requires room { (k : ℕ) → slice_index begins.old k < 2 ^ 62 }
    requires space { (k : ℕ) → slice_index stops.old k < 2 ^ 62 }
    ensures begins { begins.new ≡ begin_step yes reference x y begins.old }
    ensures stops { stops.new ≡ stop_step yes reference x y stops.old }
{
    if !yes {
        return;
    }
    let low = lowest_boundary(reference, x, y);
    let high = highest_boundary(reference, x, y);
    if low > high {
        return;
    }
    raise(begins, low);
    raise(stops, high + 1);
}

fn step_in(begins: &mut Vec<u64>, stops: &mut Vec<u64>, yes: bool, reference: u16, x: u16, y: u16)
    requires reference { 1 ≤ reference }
    requires x { x + 1 < length begins.old.items }
    requires y { y + 1 < length begins.old.items }
    requires same { length stops.old.items ≡ length begins.old.items }
    requires room { (k : ℕ) → slice_index begins.old.items k < 2 ^ 62 }
    requires space { (k : ℕ) → slice_index stops.old.items k < 2 ^ 62 }
    ensures begins { begins.new.items ≡ begin_step yes reference x y begins.old.items }
    ensures stops { stops.new.items ≡ stop_step yes reference x y stops.old.items }
{
    step(begins, stops, yes, reference, x, y);
}

// The count of a boundary.
fn count_to(begins: &[u64], stops: &[u64], boundary: usize) -> u64
    requires begins { boundary < length begins.now }
    requires stops { boundary < length stops.now }
    requires enough { (i : ℕ) → sum (take (i + 1) stops.now) ≤ sum (take i begins.now) }
    requires few { (i : ℕ) →
        sum (take (i + 1) begins.now) ≤ MAX_POINTS + sum (take (i + 1) stops.now) }
    ensures { result ≡ sum (take (boundary + 1) begins.now) - sum (take (boundary + 1) stops.now) }
{
    let mut count = 0;
    for i in 0..boundary + 1 {
        count -= stops[i];
        count += begins[i];
    }
    count
}

// A table of bins alone.
fn load_bins(table: &mut Vec<u64>, by: u16, bins: &[Bin])
    requires { All (λ b. b.key + by < length table.old.items) bins.now }
    ensures { table.new.items ≡ table_with_bins by (replicate (length table.old.items) 0) bins.now }
{
    empty(table);
    fill_bins(table, by, bins);
}

fn are_both(a: bool, b: bool) -> bool
    ensures { result ≡ (a && b) }
{
    a && b
}

fn is_either(a: bool, b: bool) -> bool
    ensures { result ≡ (a || b) }
{
    a || b
}

fn first_or(some: bool, first: u16, level: u16) -> u16
    ensures { result ≡ if some then first else level }
{
    if some { first } else { level }
}

impl Crossings {
    /// How often a boundary was crossed.
    pub fn at(&self, boundary: u16) -> u64
        requires { boundary < self.now.classes }
        ensures value { result ≡ crossing_count self.now boundary }
        ensures rules { IsCrossings self.now }
    {
        count_to(&self.begins, &self.stops, usize::from(boundary))
    }

    fn push_level(&mut self, level: u16)
        requires level { level < self.old.classes }
        requires few { (l : ℕ) → crossing_count self.old l
            + joint_crossings self.old.some self.old.reference l self.old.last level ≤ MAX_POINTS }
        ensures value { self.new ≡ push_of level self.old }
        ensures rules { IsCrossings self.old }
    {
        step_in(
            &mut self.begins,
            &mut self.stops,
            self.some,
            self.reference,
            self.last,
            level,
        );
        let first = first_or(self.some, self.first, level);
        self.first = first;
        self.last = level;
        self.some = true;
    }

    /// One level more.
    pub fn push(&mut self, level: u16)
        requires level { level < self.old.classes }
        requires few { (l : ℕ) → crossing_count self.old l
            + joint_crossings self.old.some self.old.reference l self.old.last level ≤ MAX_POINTS }
        ensures grid { (self.new.classes ≡ self.old.classes)
            × (self.new.reference ≡ self.old.reference) }
        ensures some { self.new.some ≡ true }
        ensures first { self.new.first ≡ (if self.old.some then self.old.first else level) }
        ensures last { self.new.last ≡ level }
        ensures counts { (l : ℕ) → crossing_count self.new l ≡
            crossing_count self.old l
            + joint_crossings self.old.some self.old.reference l self.old.last level }
        ensures rules { IsCrossings self.new }
        ensures histories { (h : List ℕ) → Crosses self.old h → Crosses self.new (h ++ level ∷ []) }
    {
        self.push_level(level)
    }

    fn append_history(&mut self, right: &Crossings)
        requires classes { self.old.classes ≡ right.now.classes }
        requires few { (l : ℕ) → crossing_count self.old l + crossing_count right.now l
            + joint_crossings (self.old.some && right.now.some) self.old.reference l
            self.old.last right.now.first ≤ MAX_POINTS }
        ensures value { self.new ≡ join_of self.old right.now }
        ensures left { IsCrossings self.old }
        ensures right { IsCrossings right.now }
    {
        add_to(&mut self.begins, &right.begins);
        add_to(&mut self.stops, &right.stops);
        let both = are_both(self.some, right.some);
        step_in(
            &mut self.begins,
            &mut self.stops,
            both,
            self.reference,
            self.last,
            right.first,
        );
        let first = first_or(self.some, self.first, right.first);
        let last = first_or(right.some, right.last, self.last);
        let some = is_either(self.some, right.some);
        self.first = first;
        self.last = last;
        self.some = some;
    }

    /// Appends the other's history.
    pub fn join(&mut self, right: &Crossings)
        requires classes { self.old.classes ≡ right.now.classes }
        requires reference { self.old.reference ≡ right.now.reference }
        requires few { (l : ℕ) → crossing_count self.old l + crossing_count right.now l
            + joint_crossings (self.old.some && right.now.some) self.old.reference l
            self.old.last right.now.first ≤ MAX_POINTS }
        ensures grid { (self.new.classes ≡ self.old.classes)
            × (self.new.reference ≡ self.old.reference) }
        ensures some { self.new.some ≡ (self.old.some || right.now.some) }
        ensures first { self.new.first ≡
            (if self.old.some then self.old.first else right.now.first) }
        ensures last { self.new.last ≡
            (if right.now.some then right.now.last else self.old.last) }
        ensures counts { (l : ℕ) → crossing_count self.new l ≡
            crossing_count self.old l + crossing_count right.now l
            + joint_crossings (self.old.some && right.now.some) self.old.reference l
            self.old.last right.now.first }
        ensures rules { IsCrossings self.new }
        ensures histories { (g h : List ℕ) → Crosses self.old g → Crosses right.now h →
            Crosses self.new (g ++ h) }
    {
        self.append_history(right)
    }

    /// Counts a history by its points, where nothing was counted before. How many extremes lie at
    /// each level, peaks from the reference on and valleys below it, is read off the same pass: it
    /// takes the place of what stood in `extremes`, which has a place for each class.
    pub fn take_points(&mut self, list: &[u16], extremes: &mut Vec<u64>)
        requires empty { self.old ≡ no_crossings self.old.classes self.old.reference }
        requires own { points list.now ≡ list.now }
        requires below { All (λ level. level < self.old.classes) list.now }
        requires few { length list.now ≤ MAX_POINTS }
        requires places { length extremes.old.items ≡ self.old.classes }
        ensures grid { (self.new.classes ≡ self.old.classes)
            × (self.new.reference ≡ self.old.reference) }
        ensures some { self.new.some ≡ has_level list.now }
        ensures first { self.new.first ≡ start_level list.now }
        ensures last { self.new.last ≡ last_point list.now }
        ensures counts { (l : ℕ) →
            crossing_count self.new l ≡ crossings self.old.reference l list.now }
        ensures rules { IsCrossings self.new }
        ensures extremes { (k : ℕ) → k < self.old.classes →
            slice_index extremes.new.items k ≡ extremes_at self.old.reference k list.now }
        ensures extremes_length { length extremes.new.items ≡ length extremes.old.items }
        ensures histories { (h : List ℕ) → points h ≡ list.now → Crosses self.new h }
    {
        fill(
            &mut self.begins,
            &mut self.stops,
            extremes,
            usize::from(self.reference),
            list,
        );
        self.some = has_some(list);
        self.first = first_level(list);
        self.last = last_level(list);
    }

    // Takes ends and counts in place of its own; what the value is then.
    fn replace_by(&mut self, ends: &Ends, bins: &[Bin])
        requires { CanLoadCrossings self.old.classes (end_points ends.now) bins.now }
        ensures value { self.new ≡ loaded_of self.old.classes self.old.reference
            (end_points ends.now) bins.now }
        ensures rules { IsCrossings self.old }
    {
        load_bins(&mut self.begins, 0, bins);
        load_bins(&mut self.stops, 1, bins);
        let some = ends.points != 0;
        self.some = some;
        self.first = ends.first[0];
        self.last = ends.last[1];
    }

    /// Takes the ends of a history and its counts of boundaries in place of its own.
    pub fn load(&mut self, ends: &Ends, bins: &[Bin])
        requires { CanLoadCrossings self.old.classes (end_points ends.now) bins.now }
        ensures grid { (self.new.classes ≡ self.old.classes)
            × (self.new.reference ≡ self.old.reference) }
        ensures ends { HasEnds self.new (end_points ends.now) }
        ensures counts { (l : ℕ) → crossing_count self.new l ≡ count_at l bins.now }
        ensures rules { IsCrossings self.new }
    {
        self.replace_by(ends, bins)
    }

    /// Nothing counted any more.
    pub fn clear(&mut self)
        ensures { self.new ≡ no_crossings self.old.classes self.old.reference }
    {
        empty(&mut self.begins);
        empty(&mut self.stops);
        self.some = false;
        self.first = 0;
        self.last = 0;
    }

    /// Nothing counted.
    pub fn new(alloc: Global, grid: &Grid) -> Result<Crossings, AllocError>
        ensures value { IfOk result (λ s. s ≡ no_crossings grid.now.classes grid.now.reference) }
        ensures rules { IfOk result IsCrossings }
    {
        let classes = grid.classes();
        let reference = grid.reference();
        let begins = vec![in alloc; 0; usize::from(classes) + 1]?;
        let stops = vec![in alloc; 0; usize::from(classes) + 1]?;
        Ok(Crossings {
            classes,
            reference,
            some: false,
            first: 0,
            last: 0,
            begins,
            stops,
        })
    }
}
