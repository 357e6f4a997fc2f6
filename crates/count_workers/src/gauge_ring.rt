//! Rings between a thread that feeds and a thread that takes, over `rtrb`.
//!
//! A ring has one `Feeder` and one `Taker`, each of which may move to a thread of its own. Neither
//! waits: a feed that finds no place hands the item back, and a take that finds no item gives none.
//! This crate may not wait, so no lock stands round the rings. What was fed in all and what was
//! taken in all are lists (`specs/gauge_ring/Ends.antt`); no contract ties them while the ends are
//! in two threads. In one thread `Taker::settle` tells that what was fed is what was taken,
//! followed by what is left.
//!
//! No call but `ring` takes memory. A feed or a take costs a move of the item and one look at the
//! other end, at most.

mod feeder;
mod taker;

pub use feeder::Feeder;
pub use std::alloc::AllocError as OutOfMemory;
pub use taker::{Taker, ring};

/// The most places of a ring.
pub const MAX_PLACES: usize = 1024;
