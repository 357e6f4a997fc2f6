//! Turning points of a level history: what ASTM E1049-85 calls its peaks and valleys, with the
//! first and the last level.
//!
//! Each level that equals the one before it is dropped. Of what remains the first, each level
//! greater than both neighbours or less than both, and the last are the points
//! (`specs/Points.antt`, a filter of the whole history).
//!
//! `Turner` finds them in levels that come one at a time, and gives each point as soon as it is
//! decided: its state is the last two points, and a plateau costs one comparison. It also takes
//! levels in pieces, and leaves the points of a piece in its place, in two passes with no branch on
//! the levels: several times faster where turns can't be predicted. `keep_points` does so for a
//! whole history. None takes memory.
//!
//! `Ends` are the number of points, the first two and the last two: what joins two histories
//! without their levels. `join_ends` puts the last two points of the left before the right, one by
//! one.
//!
//! The lemmas that the counting crates stand on are in `proofs/`: `Zigzag` (one level before a list
//! of points), `Over` (points of a concatenation), `Push` (one level behind a list of points),
//! `Extended` (the same in a buffer), `Levels` (what points keep of their levels), `Pieces`, and
//! `Joining`, `Put`, `MeetEnds`, `PushEnds` (ends).
//!
//! [`three_point`] runs the standard's own numbered steps (5.4.4) over such points.
#![tactic(auto)]

mod direction;
mod ends;
mod in_place;
pub mod three_point;
mod turner;

pub use direction::is_between;
pub use ends::{Ends, MAX_POINTS, ends_of, join_ends, no_ends, put_before, put_behind};
pub use in_place::keep_points;
pub use turner::Turner;
