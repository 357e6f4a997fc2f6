//! `repeat`: what a store holds of each gauge, counted as a history that repeats (5.4.5).
//!
//! The configuration is read and the store resumed, which changes nothing that a read of it gives,
//! and a text is printed for each gauge: the cycles of the level history of the samples that are
//! held, from the stored counts alone (`specs/repeat_command/Printing.antt`). No recording is read.
//! Which answer comes is as of `report` (`crates/report_command/specs/Answers.antt`).
//!
//! Beside the store it takes a page and one count, before anything is printed.

mod command;
mod printing;

pub use command::repeat_command;
