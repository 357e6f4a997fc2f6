//! The board: counted segments of a round, put together as they arrive.
//!
//! Each gauge has a window of 16 blocks, from the first sample that the round reads of it. Counted
//! blocks arrive in any order. A [`Board`] joins each with the intervals beside it, so that at any
//! moment it has for each gauge the greatest runs of samples without a gap, each with its segment.
//! The run that begins with the window is the gauge's front. A block that is none of a window, or
//! whose first sample is there already, is refused by its name, and changes nothing.
//!
//! An interval that begins at the k-th block of a window stands at place k. No call but
//! [`Board::new`] takes memory; a deposit costs a look at 16 places at most, and one join or two.
//!
//! `specs/Board.antt` has what holds of every board, `specs/DepositAnswers.antt` what a deposit
//! answers.
//!
//! [`block_pool`] has the units that blocks are read into and counted in, [`deposits`] the call
//! that puts a counted one on the board, and [`flow`] and [`arrivals`] the order in which all
//! this may happen.
#![tactic(auto)]

pub mod arrivals;
pub mod block_pool;
pub mod deposits;
pub mod flow;
mod intervals;
mod rows;
mod windows;

pub use std::alloc::AllocError as OutOfMemory;
pub use windows::{Board, Deposit};

/// The most gauges of a board.
pub const MAX_GAUGES: u16 = calibration::MAX_GAUGES;
