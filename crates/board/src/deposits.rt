//! Counted units that are deposited on a board and given back to their pool, one after another.
//!
//! `specs/deposits/Deposited.antt` says what comes of a list of units in the order in which they
//! are deposited: where they are blocks of the windows and no sample is named twice, each is placed
//! and is in the pool again. `specs/deposits/Mixed.antt` has the lists that are a mix of the
//! workers' lists, as the units come. No call here takes memory.

mod depositing;

pub use depositing::deposit_one;
