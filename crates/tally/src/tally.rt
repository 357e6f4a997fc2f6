ghost use Rattle.std.specs.Prelude.{◌≡◌, ℕ, take, ◌+◌, ◌<◌, ◌≤◌, ◌⊎◌, if◌then◌else◌, [], All, IfOk, find, length, slice_index};
ghost use Rattle.tally.specs.Counts.{IsCell, IsCounts, count_of, total_of, is_from, IsRoomOver, nothing_over, HasGreatestRoom, HasPlace};
ghost use Rattle.tally.specs.Log.{cells_of};
ghost use Rattle.turning_points.specs.Pairs.{is_pair};

use crate::cells::{Cell, MAX_TOTAL};
use crate::dense::Dense;
use crate::log::Log;
use std::alloc::{AllocError, Global};
use std::marker::Model;

/// How the counts lie in memory.
#[derive(Debug, Drop)]
enum Storage {
    Dense(Dense),
    Log(Log),
}

/// Counts by unordered pair of levels.
#[derive(Debug, Drop)]
pub struct Tally {
    storage: Storage,
}

// Clauses see the number of classes, the room and the ascending list of the cells that hold
// something.
impl Model for Tally {
    ghost use Rattle.tally.specs.Counts.{Counts};
    ghost use Rattle.tally.specs.Storage.{counts_of};

    ghost Value = { Counts };

    ghost view = { λ t. counts_of t.storage };
}

impl Tally {
    /// A tally over 2 to 1024 classes with all counts 0, and with room for so many different cells.
    /// Reserves all that it ever needs.
    pub fn new(alloc: Global, classes: u16, room: u32) -> Result<Tally, AllocError>
        requires { IsRoomOver classes room }
        ensures empty { IfOk result (λ tally. tally ≡ nothing_over classes room) }
        ensures counts { IfOk result IsCounts }
    {
        let most = classes as u32 * (classes as u32 - 1) / 2;
        if room == most {
            let dense = Dense::new(alloc, classes, room)?;
            return Ok(Tally {
                storage: Storage::Dense(dense),
            });
        }
        Tally::new_log(alloc, classes, room)
    }

    /// The same, by a log: it touches no memory before something is counted, and takes longer where
    /// much is. It is for what is seldom used.
    pub fn new_log(alloc: Global, classes: u16, room: u32) -> Result<Tally, AllocError>
        requires { IsRoomOver classes room }
        ensures empty { IfOk result (λ tally. tally ≡ nothing_over classes room) }
        ensures counts { IfOk result IsCounts }
    {
        let log = Log::new(alloc, classes, room)?;
        Ok(Tally {
            storage: Storage::Log(log),
        })
    }

    /// The number of classes. The levels of a pair are below it.
    pub fn classes(&self) -> u16
        ensures classes { result ≡ self.now.classes }
        ensures counts { IsCounts self.now }
    {
        match &self.storage {
            Storage::Dense(dense) => dense.classes(),
            Storage::Log(log) => log.classes(),
        }
    }

    /// How many different cells there is room for.
    pub fn room(&self) -> u32
        ensures room { result ≡ self.now.room }
        ensures counts { IsCounts self.now }
    {
        match &self.storage {
            Storage::Dense(dense) => dense.room(),
            Storage::Log(log) => log.room(),
        }
    }

    /// The number of pairs whose count is not 0.
    pub fn cells(&self) -> u32
        ensures cells { result ≡ length self.now.cells }
        ensures counts { IsCounts self.now }
    {
        match &self.storage {
            Storage::Dense(dense) => dense.cells(),
            Storage::Log(log) => log.cells(),
        }
    }

    /// The sum of all counts.
    pub fn total(&self) -> u64
        ensures total { result ≡ total_of self.now.cells }
        ensures counts { IsCounts self.now }
    {
        match &self.storage {
            Storage::Dense(dense) => dense.total(),
            Storage::Log(log) => log.total(),
        }
    }

    /// Adds `n` to the count of a pair.
    #[inline(always)]
    pub fn add(&mut self, lo: u16, hi: u16, n: u64)
        requires ordered { lo < hi }
        requires within { hi < self.old.classes }
        requires total { total_of self.old.cells + n ≤ MAX_TOTAL }
        requires room { HasPlace self.old lo hi n }
        ensures added { (a b : ℕ) → count_of self.new.cells a b ≡ count_of self.old.cells a b
            + (if is_pair a b (record { lo = lo; hi = hi }) then n else 0) }
        ensures total { total_of self.new.cells ≡ total_of self.old.cells + n }
        ensures cells { length self.new.cells ≤ length self.old.cells + 1 }
        ensures classes { self.new.classes ≡ self.old.classes }
        ensures room { self.new.room ≡ self.old.room }
        ensures counts { IsCounts self.new }
    {
        match &mut self.storage {
            Storage::Dense(dense) => dense.add(lo, hi, n),
            Storage::Log(log) => log.add(lo, hi, n),
        }
    }

    /// The count of a pair, 0 where `lo < hi < classes` does not hold.
    pub fn get(&self, lo: u16, hi: u16) -> u64
        ensures { result ≡ count_of self.now.cells lo hi }
    {
        match &self.storage {
            Storage::Dense(dense) => dense.get(lo, hi),
            Storage::Log(log) => log.get(lo, hi),
        }
    }

    /// The first cell at or after `(lo, hi)`, by the lower level and then by the higher one.
    pub fn next(&self, lo: u16, hi: u16) -> Option<Cell>
        ensures { result ≡ find (is_from lo hi) self.now.cells }
    {
        match &self.storage {
            Storage::Dense(dense) => dense.next(lo, hi),
            Storage::Log(log) => log.next(lo, hi),
        }
    }

    /// Writes the counts of the pairs `(lo, lo + 1)`, `(lo, lo + 2)`, .. to a buffer with a place
    /// for each. A table copies them, a log is read once.
    pub fn write_row(&self, lo: u16, out: &mut [u64])
        requires row { lo + 1 + length out.old ≡ self.now.classes }
        ensures { (k : ℕ) → k < length out.new →
            slice_index out.new k ≡ count_of self.now.cells lo (lo + 1 + k) }
    {
        match &self.storage {
            Storage::Dense(dense) => dense.write_row(lo, out),
            Storage::Log(log) => log.write_row(lo, out),
        }
    }

    /// Adds each count of `other`. Takes a step for each cell of `other`, or for each entry of its
    /// log; a table that goes into a log is walked from end to end.
    pub fn merge(&mut self, other: &Tally)
        requires classes { self.old.classes ≡ other.now.classes }
        requires total { total_of self.old.cells + total_of other.now.cells ≤ MAX_TOTAL }
        requires room { HasGreatestRoom self.old
            ⊎ (length self.old.cells + length other.now.cells ≤ self.old.room) }
        ensures merged { (a b : ℕ) → count_of self.new.cells a b ≡
            count_of self.old.cells a b + count_of other.now.cells a b }
        ensures total { total_of self.new.cells ≡
            total_of self.old.cells + total_of other.now.cells }
        ensures cells { length self.new.cells ≤ length self.old.cells + length other.now.cells }
        ensures classes { self.new.classes ≡ self.old.classes }
        ensures room { self.new.room ≡ self.old.room }
        ensures counts { IsCounts self.new }
    {
        match &other.storage {
            Storage::Log(others) => match &mut self.storage {
                Storage::Dense(dense) => dense.add_entries(others.entries(), others.total()),
                Storage::Log(log) => {
                    if !log.append(others) {
                        let _counts = log.classes();
                        add_entries(log, others.entries());
                    }
                }
            },
            Storage::Dense(others) => match &mut self.storage {
                Storage::Dense(dense) => dense.merge(others),
                Storage::Log(log) => {
                    let _counts = log.classes();
                    add_table(log, others);
                }
            },
        }
    }

    /// Writes the cells, in order, to the front of a buffer, and says how many there are. Takes no
    /// memory, and the time of putting what the tally holds in order. What a caller sees of the
    /// tally does not change.
    pub fn write_cells(&mut self, out: &mut [Cell]) -> usize
        requires room { length self.old.cells ≤ length out.old }
        ensures cells { take result out.new ≡ self.old.cells }
        ensures count { result ≡ length self.old.cells }
        ensures unchanged { self.new ≡ self.old }
    {
        match &mut self.storage {
            Storage::Dense(dense) => dense.write(out),
            Storage::Log(log) => log.write(out),
        }
    }

    /// Makes all counts 0. Takes a step for each cell.
    pub fn clear(&mut self)
        ensures empty { self.new ≡
            record { classes = self.old.classes; room = self.old.room; cells = [] } }
        ensures counts { IsCounts self.new }
    {
        match &mut self.storage {
            Storage::Dense(dense) => dense.clear(),
            Storage::Log(log) => log.clear(),
        }
    }
}

// Adds each entry to a log, one by one: it is put in order where it is full.
fn add_entries(log: &mut Log, entries: &[Cell])
    requires counts { IsCounts log.old }
    requires each { All (IsCell log.old.classes) entries.now }
    requires total { total_of log.old.cells + total_of entries.now ≤ MAX_TOTAL }
    requires room { HasGreatestRoom log.old
        ⊎ (length log.old.cells + length (cells_of entries.now) ≤ log.old.room) }
    ensures merged { (a b : ℕ) → count_of log.new.cells a b ≡
        count_of log.old.cells a b + count_of (cells_of entries.now) a b }
    ensures total { total_of log.new.cells ≡
        total_of log.old.cells + total_of (cells_of entries.now) }
    ensures cells { length log.new.cells ≤
        length log.old.cells + length (cells_of entries.now) }
    ensures classes { log.new.classes ≡ log.old.classes }
    ensures room { log.new.room ≡ log.old.room }
    ensures counts { IsCounts log.new }
{
    for entry in entries {
        log.add(entry.lo, entry.hi, entry.n);
    }
}

// Adds the cells of a table to a log. The table is walked from end to end.
fn add_table(log: &mut Log, others: &Dense)
    requires counts { IsCounts log.old }
    requires classes { log.old.classes ≡ others.now.classes }
    requires total { total_of log.old.cells + total_of others.now.cells ≤ MAX_TOTAL }
    requires room { HasGreatestRoom log.old
        ⊎ (length log.old.cells + length others.now.cells ≤ log.old.room) }
    ensures merged { (a b : ℕ) → count_of log.new.cells a b ≡
        count_of log.old.cells a b + count_of others.now.cells a b }
    ensures total { total_of log.new.cells ≡ total_of log.old.cells + total_of others.now.cells }
    ensures cells { length log.new.cells ≤ length log.old.cells + length others.now.cells }
    ensures classes { log.new.classes ≡ log.old.classes }
    ensures room { log.new.room ≡ log.old.room }
    ensures counts { IsCounts log.new }
{
    let mut from = others.next(0, 0);
    for _ in 0..others.cells() {
        if let Some(cell) = from {
            log.add(cell.lo, cell.hi, cell.n);
            from = others.next(cell.lo, cell.hi + 1);
        }
    }
}
