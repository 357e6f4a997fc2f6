ghost use Rattle.std.specs.Prelude.{◌≡◌, ℕ, ◌+◌, ◌^◌, ◌<◌, ◌≤◌, ◌⊎◌, if◌then◌else◌, [], All, IfOk, find, take, length, vec_capacity, vec_len, slice_index};
ghost use Rattle.std.specs.Bool.{OnTrue, OnFalse};
ghost use Rattle.tally.specs.Counts.{IsCell, IsCounts, count_of, total_of, is_from, IsRoomOver, nothing_over, HasPlace, HasGreatestRoom};
ghost use Rattle.tally.specs.Log.{cells_of};
ghost use Rattle.turning_points.specs.Pairs.{is_pair};
ghost use Rattle.calibration.specs.declared.grid.TheConstants.{MAX_CLASSES};

use crate::cells::{Cell, MAX_TOTAL};
use crate::entries::{amount_in, first_in, gather, pairs_in, put_first, put_row};
use std::alloc::{AllocError, Global};
use std::marker::Model;

/// Counts by unordered pair of levels, as a log: what was counted, in the order in which it was.
/// There are an eighth more places than room for cells, so that a full log, once it is put in
/// order, has a place for so many entries more.
#[derive(Debug, Drop)]
pub struct Log {
    classes: u16,
    room: u32,
    total: u64,
    entries: Vec<Cell>,
}

impl Model for Log {
    ghost use Rattle.tally.specs.Counts.{Counts};
    ghost use Rattle.tally.specs.Log.{cells_of, IsLog};
    ghost use Rattle.std.specs.Prelude.{vec_capacity};

    ghost Value = { Counts };

    ghost view = { λ t.
        record { classes = t.classes; room = t.room; cells = cells_of t.entries.items } };

    ghost invariant = { λ t. IsLog t.classes t.room t.total t.entries.items
        (vec_capacity t.entries) };
}

// Leaves at least one place free.
#[inline(always)]
fn make_place(entries: &mut Vec<Cell>)
    requires each { All (IsCell MAX_CLASSES) entries.old.items }
    requires total { total_of entries.old.items < 2 ^ 64 }
    requires room { length (cells_of entries.old.items) < vec_capacity entries.old }
    ensures place { vec_len entries.new < vec_capacity entries.new }
    ensures entries { (entries.new.items ≡ cells_of entries.old.items)
        ⊎ (entries.new.items ≡ entries.old.items) }
    ensures capacity { vec_capacity entries.new ≡ vec_capacity entries.old }
{
    if entries.len() == entries.capacity() {
        gather(entries);
    }
}

impl Log {
    /// Reserves all places.
    pub fn new(alloc: Global, classes: u16, room: u32) -> Result<Log, AllocError>
        requires { IsRoomOver classes room }
        ensures empty { IfOk result (λ tally. tally ≡ nothing_over classes room) }
    {
        let places = room as usize + room as usize / 8 + 1;
        Ok(Log {
            classes,
            room,
            total: 0,
            entries: Vec::with_capacity(alloc, places)?,
        })
    }

    /// The number of classes.
    pub fn classes(&self) -> u16
        ensures classes { result ≡ self.now.classes }
        ensures counts { IsCounts self.now }
    {
        self.classes
    }

    /// How many different cells there is room for.
    pub fn room(&self) -> u32
        ensures room { result ≡ self.now.room }
        ensures counts { IsCounts self.now }
    {
        self.room
    }

    /// The number of pairs whose count is not 0. Reads the log once for each pair.
    pub fn cells(&self) -> u32
        ensures cells { result ≡ length self.now.cells }
        ensures counts { IsCounts self.now }
    {
        pairs_in(&self.entries) as u32
    }

    /// The sum of all counts.
    pub fn total(&self) -> u64
        ensures total { result ≡ total_of self.now.cells }
        ensures counts { IsCounts self.now }
    {
        self.total
    }

    /// What was counted, in no order.
    pub fn entries(&self) -> &[Cell]
        ensures cells { cells_of result.now ≡ self.now.cells }
        ensures each { All (IsCell self.now.classes) result.now }
        ensures total { total_of result.now ≡ total_of self.now.cells }
        ensures counts { IsCounts self.now }
    {
        &self.entries
    }

    /// Writes the cells, in order, to the front of a buffer. Puts the log in order and equal pairs
    /// together first.
    pub fn write(&mut self, out: &mut [Cell]) -> usize
        requires room { length self.old.cells ≤ length out.old }
        ensures cells { take result out.new ≡ self.old.cells }
        ensures count { result ≡ length self.old.cells }
        ensures unchanged { self.new ≡ self.old }
    {
        gather(&mut self.entries);
        put_first(out, &self.entries);
        self.entries.len()
    }

    /// Adds `n` to the count of a pair.
    #[inline(always)]
    pub fn add(&mut self, lo: u16, hi: u16, n: u64)
        requires ordered { lo < hi }
        requires within { hi < self.old.classes }
        requires total { total_of self.old.cells + n ≤ MAX_TOTAL }
        requires room { HasPlace self.old lo hi n }
        ensures added { (a b : ℕ) → count_of self.new.cells a b ≡ count_of self.old.cells a b
            + (if is_pair a b (record { lo = lo; hi = hi }) then n else 0) }
        ensures total { total_of self.new.cells ≡ total_of self.old.cells + n }
        ensures cells { length self.new.cells ≤ length self.old.cells + 1 }
        ensures classes { self.new.classes ≡ self.old.classes }
        ensures room { self.new.room ≡ self.old.room }
        ensures counts { IsCounts self.new }
    {
        self.total += n;
        if n > 0 {
            make_place(&mut self.entries);
            self.entries.push_reserved(Cell { lo, hi, n });
        }
    }

    /// Adds all entries of another log at once where there are places for them, and says whether
    /// there are.
    pub fn append(&mut self, other: &Log) -> bool
        requires classes { self.old.classes ≡ other.now.classes }
        requires total { total_of self.old.cells + total_of other.now.cells ≤ MAX_TOTAL }
        requires room { HasGreatestRoom self.old
            ⊎ (length self.old.cells + length other.now.cells ≤ self.old.room) }
        ensures merged { OnTrue result ((a b : ℕ) → count_of self.new.cells a b ≡
            count_of self.old.cells a b + count_of other.now.cells a b) }
        ensures total { OnTrue result
            (total_of self.new.cells ≡ total_of self.old.cells + total_of other.now.cells) }
        ensures cells { OnTrue result
            (length self.new.cells ≤ length self.old.cells + length other.now.cells) }
        ensures classes { self.new.classes ≡ self.old.classes }
        ensures room { self.new.room ≡ self.old.room }
        ensures counts { IsCounts self.new }
        ensures unchanged { OnFalse result (self.new ≡ self.old) }
    {
        if self.entries.capacity() - self.entries.len() < other.entries.len() {
            return false;
        }
        // There are places, so that no memory is taken.
        let _ = self.entries.extend_from_slice(&other.entries);
        self.total += other.total;
        true
    }

    /// The count of a pair. Reads the log once.
    pub fn get(&self, lo: u16, hi: u16) -> u64
        ensures { result ≡ count_of self.now.cells lo hi }
    {
        amount_in(&self.entries, lo, hi)
    }

    /// Writes the counts of the pairs of a lower level to a buffer. Reads the log once.
    pub fn write_row(&self, lo: u16, out: &mut [u64])
        requires row { lo + 1 + length out.old ≡ self.now.classes }
        ensures { (k : ℕ) → k < length out.new →
            slice_index out.new k ≡ count_of self.now.cells lo (lo + 1 + k) }
    {
        put_row(&self.entries, lo, out);
    }

    /// The first cell at or after a pair. Reads the log to its end.
    pub fn next(&self, lo: u16, hi: u16) -> Option<Cell>
        ensures { result ≡ find (is_from lo hi) self.now.cells }
    {
        first_in(&self.entries, lo, hi)
    }

    /// Makes all counts 0, and keeps the places.
    pub fn clear(&mut self)
        ensures empty { self.new ≡
            record { classes = self.old.classes; room = self.old.room; cells = [] } }
        ensures counts { IsCounts self.new }
    {
        self.entries.clear();
        self.total = 0;
    }
}
