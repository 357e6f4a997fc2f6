//! Level crossings of a level history (ASTM E1049-85, 5.1): how often it crosses each boundary,
//! upwards from the reference on and downwards below it.
//!
//! `Crossings` keeps two tables of differences, what begins and what stops at each boundary, so a
//! level costs two places however far it jumps, and a count is the difference of two sums. It takes
//! levels one at a time, the points of a history at once (one place a point, no branch on the
//! levels, and the peaks and valleys of 5.2 are read off the same pass), another part that follows,
//! or counts that were kept. `clear` is one pass over the places; only `new` takes memory.

mod crossings;
/// Laws over the definitions alone.
pub mod laws;
mod points;

pub use crossings::Crossings;
