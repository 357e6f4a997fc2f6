//! The lanes of a site's recordings: a source for each gauge, which stands behind the samples that
//! the store holds of it.
//!
//! `open_lanes` takes the gauges in order of number. It fetches each recording, compares its head
//! with the one that the store was made for, and skips what is held. `specs/Opening.antt` says what
//! is the first thing wrong with a recording, `specs/Answers.antt` which gauge's fault is answered
//! and how a recording ends, `specs/Asked.antt` which files are asked for, `specs/Lanes.antt` how a
//! lane stands to its recording. `first_fault` tells how the lanes ended, and `give_back` gives
//! their sources back to the site.
//!
//! Cost: a fetch and a head for each gauge, and the bytes of what is skipped. No call here takes
//! memory.
#![tactic(auto)]

mod ending;
mod lanes;
mod opening;

pub use ending::{first_fault, give_back, have_ended};
pub use lanes::{open_lanes, opened_status};
pub use opening::{OpenFault, open_recording};
