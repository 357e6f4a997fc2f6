//! What a round borrows from its lanes: the windows of the board begin where the lanes stand, each
//! reader gets its lane's source and a round's units, and gives back what it did not use.
//!
//! `specs/lane_loans/Lent.antt` says what a lane lends and gets back. No call here takes memory.

mod lane;
mod lanes;
mod units;

pub use lane::Lane;
pub use lanes::{begin_windows, lend_lanes, return_lanes};
