ghost use Rattle.std.specs.Prelude.{◌≡◌, ◌≤◌, true, EachIndex, IfOk, MatchOption, length, replicate, slice_index, slice_index_or};
ghost use Rattle.calibration.specs.declared.limits.TheConstants.{MAX_GAUGES};
ghost use Rattle.live_view.specs.View.{AreAlike, IsKnown, blank_row, blank_view, row_at};
ghost use Rattle.live_view.specs.Shows.{fits, replaced, show_of};

use crate::OutOfMemory;
use crate::row::Row;
use crate::show::Show;
use calibration::Grid;
use segment::Segment;
use std::alloc::Global;
use std::marker::Model;

/// A row for each gauge of a site: the end of its segment's name, its numbers of readings, and its
/// half units by range.
#[derive(Drop)]
pub struct View {
    grid: Grid,
    rows: Vec<Row>,
}

impl Model for View {
    ghost use Rattle.live_view.specs.View.{ViewValue, IsView};

    ghost Value = { ViewValue };

    ghost view = { λ v. record { grid = v.grid; rows = v.rows.items } };

    ghost invariant = { λ v. IsView (record { grid = v.grid; rows = v.rows.items }) };
}

// So many rows, in which all numbers are 0.
fn blank_rows(alloc: Global, classes: u16, gauges: u16) -> Result<Vec<Row>, OutOfMemory>
    ensures { IfOk result (λ rows. rows.items ≡ replicate gauges (blank_row classes)) }
{
    let mut rows = Vec::with_capacity(alloc, usize::from(gauges))?;
    for _ in 0..gauges {
        rows.push_reserved(Row::new(alloc, classes)?);
    }
    Ok(rows)
}

// Makes each row another one, over as many classes.
fn copy_rows(rows: &mut [Row], others: &[Row])
    requires { (length rows.old ≡ length others.now)
        × EachIndex rows.old (λ k. length (slice_index_or rows.old k (blank_row 0)).halves
        ≡ length (slice_index_or others.now k (blank_row 0)).halves) }
    ensures { rows.new ≡ others.now }
{
    for i in 0..rows.len() {
        rows[i].copy(&others[i]);
    }
}

impl View {
    /// A view of so many gauges, 1 to 32. All numbers are 0.
    pub fn new(alloc: Global, grid: &Grid, gauges: u16) -> Result<View, OutOfMemory>
        requires { (1 ≤ gauges) × (gauges ≤ MAX_GAUGES) }
        ensures { IfOk result (λ v. v ≡ blank_view grid.now gauges) }
    {
        Ok(View {
            grid: *grid,
            rows: blank_rows(alloc, grid.classes(), gauges)?,
        })
    }

    /// The row of the segment's gauge becomes that of the segment. It takes no memory.
    pub fn set(&mut self, segment: &Segment)
        requires grid { segment.now.grid ≡ self.old.grid }
        requires gauge { IsKnown self.old segment.now.gauge }
        ensures { self.new ≡ replaced self.old (show_of segment.now) }
    {
        let gauge = usize::from(segment.name().gauge);
        self.rows[gauge].set(segment);
    }

    /// Where the gauge's segment ends; 0 where it has no row for the gauge, as the numbers below.
    pub fn to(&self, gauge: u16) -> u64
        ensures { result ≡ (row_at self.now gauge).to }
    {
        match self.row(gauge) {
            Some(row) => row.to(),
            None => 0,
        }
    }

    /// How many of its samples have a level.
    pub fn used(&self, gauge: u16) -> u64
        ensures { result ≡ (row_at self.now gauge).used }
    {
        match self.row(gauge) {
            Some(row) => row.used(),
            None => 0,
        }
    }

    /// How many have no reading.
    pub fn missing(&self, gauge: u16) -> u64
        ensures { result ≡ (row_at self.now gauge).missing }
    {
        match self.row(gauge) {
            Some(row) => row.missing(),
            None => 0,
        }
    }

    /// How many have a reading outside the classes.
    pub fn refused(&self, gauge: u16) -> u64
        ensures { result ≡ (row_at self.now gauge).refused }
    {
        match self.row(gauge) {
            Some(row) => row.refused(),
            None => 0,
        }
    }

    /// The half units of its ranges that are so many classes long; 0 where it has no such range.
    pub fn half_units(&self, gauge: u16, k: u16) -> u64
        ensures { result ≡ slice_index (row_at self.now gauge).halves k }
    {
        match self.row(gauge) {
            Some(row) => row.half_units(k),
            None => 0,
        }
    }

    // The row of a gauge, where it has one.
    fn row(&self, gauge: u16) -> Option<&Row>
        ensures { MatchOption result (row_at self.now gauge ≡ blank_row 0)
            (λ r. r.now ≡ row_at self.now gauge) }
    {
        self.rows.get(usize::from(gauge))
    }

    /// Whether it has a row for the show, with as many ranges.
    pub(crate) fn has_room(&self, show: &Show) -> bool
        ensures { result ≡ fits self.now show.now }
    {
        usize::from(show.gauge) < self.rows.len()
            && show.row.classes() == usize::from(self.grid.classes())
    }

    /// The row of the show's gauge becomes that of the show.
    pub(crate) fn put(&mut self, show: &Show)
        requires { fits self.old show.now ≡ true }
        ensures { self.new ≡ replaced self.old show.now }
    {
        self.rows[usize::from(show.gauge)].copy(&show.row);
    }

    /// Makes it another view of as many gauges over its grid. It takes no memory.
    pub(crate) fn copy(&mut self, other: &View)
        requires { AreAlike self.old other.now }
        ensures { self.new ≡ other.now }
    {
        self.grid = other.grid;
        copy_rows(self.rows.as_mut_slice(), other.rows.as_slice());
    }

    /// The same view once more.
    pub(crate) fn twin(&self, alloc: Global) -> Result<View, OutOfMemory>
        ensures { IfOk result (λ v. v ≡ self.now) }
    {
        let rows = blank_rows(alloc, self.grid.classes(), self.rows.len() as u16)?;
        let mut twin = View {
            grid: self.grid,
            rows,
        };
        twin.copy(self);
        Ok(twin)
    }
}
