use crate::segment_rules::name::Name;
use calibration::Items;
use tally::{Bin, Cell};
use turning_points::Ends;

/// The parts of a segment, as lists: what stands of it on a disk. [`crate::first_broken`] tells
/// whether they are a segment's.
#[derive(Debug, Drop)]
pub struct Parts {
    pub name: Name,
    /// Readings that gave a level, readings that were missing, and readings outside the classes.
    pub used: u64,
    pub missing: u64,
    pub refused: u64,
    /// The number of points, the first two and the last two.
    pub ends: Ends,
    /// The levels of the residue, the oldest first.
    pub residue: Items<u16>,
    /// The full cycles, by unordered pair of levels.
    pub cells: Items<Cell>,
    /// By boundary.
    pub crossings: Items<Bin>,
    /// By level.
    pub peaks: Items<Bin>,
    pub valleys: Items<Bin>,
    /// Simple ranges, in half cycles.
    pub ranges: Items<Bin>,
}
