//! The flow of blocks from the recordings to the store, as a machine of five events over names:
//! a block is fed to a ring, counted, placed and stored, and a run may stop at any moment.
//!
//! `specs/flow/Flow.antt` has its states and events, `specs/flow/Kept.antt` what every list of
//! events keeps. Nothing here knows of threads: the orders in which threads can act are among the
//! lists of events. There is no code but the laws.

/// The laws of the flow.
pub mod laws;

/// The blocks that a round reads of a gauge at most: its window.
pub const BLOCKS_PER_WINDOW: usize = 16;
