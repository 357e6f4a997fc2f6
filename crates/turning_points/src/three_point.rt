//! The three-point count of ASTM E1049-85, 5.4.4 (rainflow counting), over the points of a level
//! history.
//!
//! `specs/three_point/Run.antt` has the run as a recursion over the live points, and
//! `specs/three_point/Standard.antt` the standard's numbered steps, with X, Y and the starting
//! point S; `laws::standard` says that the two count the same ranges in the same order.
//!
//! The live points are a stack, the newest on top. Where Y contains the starting point there are
//! two of them below the point that is read, so dropping the first moves one level; otherwise the
//! two points of Y are on top. Each step of the standard thus takes constant time, and each point
//! is read once and dropped once.
//!
//! `Run` takes points as they come, in constant memory: from the oldest live point to the newest
//! the ranges fall, so there are at most `classes + 1` of them. It hands each range to a
//! `RangeCounter` as it is counted; `HalfUnits` is one, with a place for each range. `astm` lists
//! the ranges of a list of points, and so also what tables do not tell: when each was counted. It
//! takes 6 bytes for each point and 2 for the live ones. Both take the same steps (`reading.rt`).

mod counter;
mod half_units;
/// Laws over the definitions alone.
pub mod laws;
mod listing;
mod ranges;
mod reading;
mod run;

pub use counter::RangeCounter;
pub use half_units::HalfUnits;
pub use listing::astm;
pub use ranges::{Range, Ranges};
pub use run::Run;
