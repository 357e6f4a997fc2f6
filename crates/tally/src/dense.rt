ghost use Rattle.std.specs.Prelude.{◌≡◌, ℕ, ◌+◌, ◌<◌, ◌≤◌, ◌⊎◌, if◌then◌else◌, [], All, IfOk, find, length, take, slice_index};
ghost use Rattle.turning_points.specs.Pairs.{is_pair};

use crate::cells::{Cell, MAX_TOTAL};
use crate::layout::{
    empty, first_from, order, place, raise, raise_all, raise_each, write_cells, write_row,
};
use std::alloc::{AllocError, Global};
use std::marker::Model;

/// Counts by unordered pair of levels, in a table with a place for each pair.
#[derive(Debug, Drop)]
pub struct Dense {
    classes: u16,
    room: u32,
    total: u64,
    counts: Vec<u64>,
    touched: Vec<u32>,
    used: usize,
}

impl Model for Dense {
    ghost use Rattle.tally.specs.Counts.{Counts};
    ghost use Rattle.tally.specs.Layout.{counts_in, IsLayout};

    ghost Value = { Counts };

    ghost view = { λ t. counts_in t.classes t.room t.counts.items };

    ghost invariant = { λ t. IsLayout t.classes t.room t.counts.items t.touched.items t.used
        t.total };
}

impl Dense {
    ghost use Rattle.tally.specs.Counts.{
      IsCell,
      IsCounts,
      count_of,
      total_of,
      is_from,
      IsRoomOver,
      nothing_over,
      HasGreatestRoom,
      HasPlace,
    };
    ghost use Rattle.tally.specs.Log.{cells_of};

    /// Reserves the whole table, and a list of places as long as the room, with one place to spare.
    pub fn new(alloc: Global, classes: u16, room: u32) -> Result<Dense, AllocError>
        requires { IsRoomOver classes room }
        ensures empty { IfOk result (λ tally. tally ≡ nothing_over classes room) }
    {
        let places = classes as usize * (classes as usize - 1) / 2;
        Ok(Dense {
            classes,
            room,
            total: 0,
            counts: vec![in alloc; 0; places]?,
            touched: vec![in alloc; 0; room as usize + 1]?,
            used: 0,
        })
    }

    /// The number of classes.
    pub fn classes(&self) -> u16
        ensures classes { result ≡ self.now.classes }
        ensures counts { IsCounts self.now }
    {
        self.classes
    }

    /// How many different cells there is room for.
    pub fn room(&self) -> u32
        ensures room { result ≡ self.now.room }
        ensures counts { IsCounts self.now }
    {
        self.room
    }

    /// The number of pairs whose count is not 0.
    pub fn cells(&self) -> u32
        ensures cells { result ≡ length self.now.cells }
        ensures counts { IsCounts self.now }
    {
        self.used as u32
    }

    /// The sum of all counts.
    pub fn total(&self) -> u64
        ensures total { result ≡ total_of self.now.cells }
        ensures counts { IsCounts self.now }
    {
        self.total
    }

    /// Adds `n` to the count of a pair.
    #[inline(always)]
    pub fn add(&mut self, lo: u16, hi: u16, n: u64)
        requires ordered { lo < hi }
        requires within { hi < self.old.classes }
        requires total { total_of self.old.cells + n ≤ MAX_TOTAL }
        requires room { HasPlace self.old lo hi n }
        ensures added { (a b : ℕ) → count_of self.new.cells a b ≡ count_of self.old.cells a b
            + (if is_pair a b (record { lo = lo; hi = hi }) then n else 0) }
        ensures total { total_of self.new.cells ≡ total_of self.old.cells + n }
        ensures cells { length self.new.cells ≤ length self.old.cells + 1 }
        ensures classes { self.new.classes ≡ self.old.classes }
        ensures room { self.new.room ≡ self.old.room }
        ensures counts { IsCounts self.new }
    {
        let at = place(self.classes, lo, hi);
        self.used = raise(&mut self.counts, &mut self.touched, self.used, at, n);
        self.total += n;
    }

    /// The count of a pair, 0 where it has no place.
    pub fn get(&self, lo: u16, hi: u16) -> u64
        ensures { result ≡ count_of self.now.cells lo hi }
    {
        if lo < hi && hi < self.classes {
            self.counts[place(self.classes, lo, hi)]
        } else {
            0
        }
    }

    /// Copies the counts of the pairs of a lower level to a buffer.
    pub fn write_row(&self, lo: u16, out: &mut [u64])
        requires row { lo + 1 + length out.old ≡ self.now.classes }
        ensures { (k : ℕ) → k < length out.new →
            slice_index out.new k ≡ count_of self.now.cells lo (lo + 1 + k) }
    {
        write_row(&self.counts, self.classes, lo, out);
    }

    /// The first cell at or after a pair. Looks from the place of the pair on.
    pub fn next(&self, lo: u16, hi: u16) -> Option<Cell>
        ensures { result ≡ find (is_from lo hi) self.now.cells }
    {
        let classes = self.classes;
        if lo >= classes - 1 {
            return None;
        }
        let from = hi.max(lo + 1);
        if from < classes {
            return first_from(&self.counts, classes, lo, from);
        }
        if lo + 2 < classes {
            return first_from(&self.counts, classes, lo + 1, lo + 2);
        }
        None
    }

    /// Writes the cells, in order, to the front of a buffer. Puts the list of places in order
    /// first.
    pub fn write(&mut self, out: &mut [Cell]) -> usize
        requires room { length self.old.cells ≤ length out.old }
        ensures cells { take result out.new ≡ self.old.cells }
        ensures count { result ≡ length self.old.cells }
        ensures unchanged { self.new ≡ self.old }
    {
        order(&mut self.touched, self.used);
        write_cells(&self.counts, self.classes, &self.touched, self.used, out);
        self.used
    }

    /// Adds each entry of a list. They come to `total` together.
    pub fn add_entries(&mut self, entries: &[Cell], total: u64)
        requires each { All (IsCell self.old.classes) entries.now }
        requires sum { total ≡ total_of entries.now }
        requires total { total_of self.old.cells + total ≤ MAX_TOTAL }
        requires room { HasGreatestRoom self.old
            ⊎ (length self.old.cells + length (cells_of entries.now) ≤ self.old.room) }
        ensures merged { (a b : ℕ) → count_of self.new.cells a b ≡
            count_of self.old.cells a b + count_of (cells_of entries.now) a b }
        ensures total { total_of self.new.cells ≡ total_of self.old.cells + total }
        ensures cells { length self.new.cells ≤
            length self.old.cells + length (cells_of entries.now) }
        ensures classes { self.new.classes ≡ self.old.classes }
        ensures room { self.new.room ≡ self.old.room }
        ensures counts { IsCounts self.new }
    {
        let classes = self.classes;
        self.used = raise_each(
            &mut self.counts,
            &mut self.touched,
            self.used,
            classes,
            entries,
        );
        self.total += total;
    }

    /// Adds each count of another table. Takes a step for each listed place.
    pub fn merge(&mut self, other: &Dense)
        requires classes { self.old.classes ≡ other.now.classes }
        requires total { total_of self.old.cells + total_of other.now.cells ≤ MAX_TOTAL }
        requires room { HasGreatestRoom self.old
            ⊎ (length self.old.cells + length other.now.cells ≤ self.old.room) }
        ensures merged { (a b : ℕ) → count_of self.new.cells a b ≡
            count_of self.old.cells a b + count_of other.now.cells a b }
        ensures total { total_of self.new.cells ≡
            total_of self.old.cells + total_of other.now.cells }
        ensures cells { length self.new.cells ≤ length self.old.cells + length other.now.cells }
        ensures classes { self.new.classes ≡ self.old.classes }
        ensures room { self.new.room ≡ self.old.room }
        ensures counts { IsCounts self.new }
    {
        self.used = raise_all(
            &mut self.counts,
            &mut self.touched,
            self.used,
            &other.counts,
            &other.touched,
            other.used,
        );
        self.total += other.total;
    }

    /// Makes all counts 0. Takes a step for each listed place.
    pub fn clear(&mut self)
        ensures empty { self.new ≡
            record { classes = self.old.classes; room = self.old.room; cells = [] } }
        ensures counts { IsCounts self.new }
    {
        empty(&mut self.counts, &self.touched, self.used);
        self.used = 0;
        self.total = 0;
    }
}
