//! The names that a round feeds to its workers, and in what order they may arrive where they are
//! placed: each block once, and those of one gauge through one worker in order.
//!
//! `specs/arrivals/Arrivals.antt` says it by one equation for each gauge and worker, and the law
//! ties it to the flow of blocks. There is no code but the law.

/// The law of the arrivals.
pub mod laws;
