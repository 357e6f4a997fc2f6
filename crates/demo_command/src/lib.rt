//! The command `demo`: four recordings that are made from a number, counted in rounds and summed up
//! in five lines, without a store and a configuration.
//!
//! `specs/Made.antt` says what the recordings are, and `specs/Summary.antt` what is printed of
//! them: for each gauge the half units of its rainflow table (ASTM E1049-85, 5.4.4) as cycles, and
//! how many levels the four-point method leaves. It is the same for every number of workers, since
//! there is one summary of each seed and number of samples (`laws::one_summary`).
//!
//! Cost: the memory of rounds and of a segment for each gauge, all taken before the first sample.
#![tactic(auto)]

mod command;
mod counting;
/// Laws over the definitions alone.
pub mod laws;
mod made;
mod text;
mod totals;

pub use command::demo_command;
