//! Rounds: recordings are read and counted by threads beside each other, a few blocks of each gauge
//! at a time, in memory that was taken before the first round.
//!
//! A [`Plan`] says for how many gauges, which block and how many workers rounds are [`Prepared`]. A
//! round reads up to 16 blocks of each [`Lane`], deals them to the workers, and puts together what
//! they counted: the front of a gauge stands for exactly the samples that its lane gave in this
//! round, with any number of workers. One worker counts in the caller's thread, which reads,
//! counts and places one block after the other. Several count beside each other when all was read,
//! the caller's thread among theirs; where a thread can't be made, its work is done by the caller.
//!
//! What a round does is said by `RoundDone` and `SourcesBack`
//! (`crates/count_workers/specs/round_making/Round.antt`).
//!
//! From below: [`gauge_ring`] carries units between threads, [`block_workers`] read and count a
//! block, [`collector`] puts what was counted on the board, `running` has them all run,
//! [`lane_loans`] lends lanes to a round and puts them back, [`round_making`] makes a whole round,
//! and `round_accounts` has lemmas on what comes back.
#![tactic(auto)]

pub mod block_workers;
pub mod collector;
pub mod crew;
pub mod gauge_ring;
mod hiring;
pub mod lane_loans;
mod plan;
mod prepared;
mod preparing;
pub mod round_accounts;
pub mod round_making;
mod running;

pub use plan::Plan;
pub use prepared::Prepared;
pub use std::alloc::AllocError as OutOfMemory;
