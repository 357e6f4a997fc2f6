//! Units of a block of samples, whose state is their type, and the pool that lends them.
//!
//! A unit has a buffer for a block of raw values, room for their levels and a segment. It is
//! `Blank`, then `Filled` with samples of a gauge, then `Counted`: its segment has the name of its
//! samples and stands for them, so nobody can hand on a unit that was not counted.
//! `specs/block_pool/Units.antt` says what contracts see of it. All memory is taken by `Pool::new`.
//! A block is counted at once (`Segment::count_block`).
//!
//! No clause follows a unit through another thread. Who hands one out keeps a [`Receipt`] of it, and
//! knows the count by comparing: a name, a grid, a gain and the samples.

mod pool;
mod receipt;
mod unit;

pub use pool::Pool;
pub use receipt::Receipt;
pub use std::alloc::AllocError as OutOfMemory;
pub use unit::{Blank, Counted, Filled};

/// The most samples of a block.
pub const MAX_BLOCK: usize = calibration::MAX_BLOCK as usize;

/// The most units of a pool.
pub const MAX_UNITS: usize = 1024;
