//! `compact`: a compact copy of a store.
//!
//! The configuration is read and the store resumed, which changes nothing that a read of it gives,
//! and the copy is written: a store of version 2 with one body for each gauge that has samples.
//! `specs/compact_command/Copying.antt` says what is written. Which answer comes is as of `report`
//! (`crates/report_command/specs/Answers.antt`).
//!
//! Beside the store it takes room for the longest body, before anything is written.

mod command;

pub use command::compact_command;
