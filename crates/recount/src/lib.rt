//! The samples of a recording counted again, in one pass by the standard's run (ASTM E1049-85,
//! 5.4.4), and what a segment keeps of them compared with that count.
//!
//! A [`RunningCount`] takes samples piece by piece: their levels, the points that these decide, and
//! the ranges that the run counts as it reads the points, which it hands to a counter. Nothing of
//! the recording is kept, so the memory does not grow with it. [`count_again`] does so over the
//! first samples of a source, by pair of levels, and [`first_difference`] compares a segment with
//! what was found. A segment is counted by four-point reduction and joined from parts; the recount
//! takes neither way.
//!
//! `specs/Counted.antt` says what a running count has come to, `specs/Compared.antt` which
//! difference is the first one.
#![tactic(auto)]

mod compare;
mod count;
mod piece;
mod running;

pub use compare::{Difference, What, first_difference};
pub use count::{Recount, RecountFault, count_again};
pub use piece::Piece;
pub use running::{MAX_AT_ONCE, RunningCount};
