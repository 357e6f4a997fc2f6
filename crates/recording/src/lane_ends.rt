//! How the reading of a recording goes on and ends: a block of samples after another, until input
//! ends, a take fails, or the recording is longer than one may be.
//!
//! `specs/lane_ends/Ends.antt` says which end it is; what is read in blocks ends as what is read at
//! once (`proofs/on_lane_ends/Giving.antt`). A block costs a `fill`; at the limit of a recording
//! one further sample is looked at. No call here takes memory.

mod end;
mod reading;

pub use end::{End, LaneRead};
pub use reading::read_samples;
