//! A whole round over its parts: the lanes lend their sources, readers, workers and the collector
//! run, all rings are settled, and the sources are put back.
//!
//! Between two rounds all parts are at rest (`specs/round_making/Resting.antt`): all units are in
//! the pool, and what was fed to each ring was taken. `specs/round_making/Round.antt` says what a
//! round does: where each lane stands and how it ended, what its front stands for, what went
//! through each ring, and in what order the blocks arrived. No call here takes memory.

mod making;

pub use making::make_round;
