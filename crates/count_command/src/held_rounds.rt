//! Rounds that are stored: each round's fronts are put into the store, and acknowledged, until each
//! lane has ended. With several workers the puts and lines of a round run beside the next round,
//! from the board that the round filled, while the next one fills the other board. One worker makes
//! them before the next round, and no thread is started.
//!
//! `specs/held_rounds/Made.antt` says what all rounds do, `specs/held_rounds/Telling.antt` which
//! lines were told after so many, `specs/held_rounds/Beside.antt` how a board leads from what is
//! held to where the lanes are. What is true at every moment is said by the module `held_samples`,
//! from the entry of each call on. The hook of the puts runs in the caller's thread.
//!
//! With several workers helpers count in threads that are started once for all rounds
//! (`count_workers::crew`).
//!
//! Cost: with several workers a thread for each round but the first, beside the caller's and those
//! of the helpers; behind its puts the caller's counts with them, and stays awake until the round
//! has ended, or some milliseconds long where there is nothing to count. No call here takes memory,
//! unless its hook does.

mod beside;
mod helped;
mod to_make;

pub use helped::count_rounds;
pub use to_make::RoundsToMake;
