ghost use Rattle.std.specs.Prelude.{◌≡◌, IfOk, length, slice_index};
ghost use Rattle.live_view.specs.View.{IsRow, blank_row, half_units_of, row_of};

use crate::OutOfMemory;
use segment::Segment;
use std::alloc::Global;
use std::marker::Model;

/// What is shown of a gauge: the end of its segment's name, its numbers of readings, and its half
/// units by range.
#[derive(Drop)]
pub struct Row {
    to: u64,
    used: u64,
    missing: u64,
    refused: u64,
    halves: Vec<u64>,
}

impl Model for Row {
    ghost use Rattle.live_view.specs.View.{RowValue};

    ghost Value = { RowValue };

    ghost view = { λ r. record {
      to = r.to;
      used = r.used;
      missing = r.missing;
      refused = r.refused;
      halves = r.halves.items;
    } };
}

// The half units of a segment by range.
fn put_half_units(segment: &Segment, out: &mut [u64])
    requires { length out.old ≡ segment.now.grid.classes }
    ensures { out.new ≡ half_units_of segment.now }
{
    segment.half_units(out);
}

// The same in a list of numbers.
fn set_half_units(segment: &Segment, halves: &mut Vec<u64>)
    requires { length halves.old.items ≡ segment.now.grid.classes }
    ensures { halves.new.items ≡ half_units_of segment.now }
{
    put_half_units(segment, halves);
}

// Makes the numbers those of another list that is as long.
fn copy_numbers(numbers: &mut Vec<u64>, others: &[u64])
    requires { length numbers.old.items ≡ length others.now }
    ensures { numbers.new.items ≡ others.now }
{
    numbers.copy_from_slice(others);
}

impl Row {
    /// A row over so many classes. All numbers are 0.
    pub fn new(alloc: Global, classes: u16) -> Result<Row, OutOfMemory>
        ensures { IfOk result (λ r. r ≡ blank_row classes) }
    {
        Ok(Row {
            to: 0,
            used: 0,
            missing: 0,
            refused: 0,
            halves: vec![in alloc; 0; usize::from(classes)]?,
        })
    }

    /// Makes it the row of a segment over as many classes.
    pub fn set(&mut self, segment: &Segment)
        requires { IsRow segment.now.grid.classes self.old }
        ensures { self.new ≡ row_of segment.now }
    {
        self.to = segment.name().to;
        self.used = segment.used();
        self.missing = segment.missing();
        self.refused = segment.refused();
        set_half_units(segment, &mut self.halves);
    }

    /// Makes it another row over as many classes.
    pub fn copy(&mut self, other: &Row)
        requires { length self.old.halves ≡ length other.now.halves }
        ensures { self.new ≡ other.now }
    {
        self.to = other.to;
        self.used = other.used;
        self.missing = other.missing;
        self.refused = other.refused;
        copy_numbers(&mut self.halves, other.halves.as_slice());
    }

    /// The classes that it is over.
    pub fn classes(&self) -> usize
        ensures { result ≡ length self.now.halves }
    {
        self.halves.len()
    }

    /// Where the gauge's segment ends.
    pub fn to(&self) -> u64
        ensures { result ≡ self.now.to }
    {
        self.to
    }

    /// How many of its samples have a level.
    pub fn used(&self) -> u64
        ensures { result ≡ self.now.used }
    {
        self.used
    }

    /// How many have no reading.
    pub fn missing(&self) -> u64
        ensures { result ≡ self.now.missing }
    {
        self.missing
    }

    /// How many have a reading outside the classes.
    pub fn refused(&self) -> u64
        ensures { result ≡ self.now.refused }
    {
        self.refused
    }

    /// The half units of the ranges that are so many classes long; 0 where it has no such range.
    pub fn half_units(&self, k: u16) -> u64
        ensures { result ≡ slice_index self.now.halves k }
    {
        match self.halves.get(usize::from(k)) {
            Some(units) => *units,
            None => 0,
        }
    }
}
