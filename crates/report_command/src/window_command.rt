//! `window`: the report of a window of time.
//!
//! The configuration is read, and the bodies of the store that lie inside the window are joined for
//! each gauge (`window_counts`), which changes nothing that a read of the store gives; then the
//! report is printed, each gauge behind the line of its window. A body across a border is left out
//! whole. `specs/window_command/Printing.antt` says of which figures it is. Which answer comes is
//! as of `report` (`crates/report_command/specs/Answers.antt`).

mod command;

pub use command::window_command;
