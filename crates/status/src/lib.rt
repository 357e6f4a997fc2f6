//! How the commands of the program end.
//!
//! `Status` has an answer for each cause, with what it carries; the exit status of the process is
//! `specs/Status.antt`. The answer for a store that is not resumed is that of `specs/Refused.antt`,
//! and what is wrong with a recording whose head has a fault that of `specs/RecordingFaults.antt`.
//!
//! [`config_reading`] reads the configuration, [`fault_lines`] tells the line of an answer that
//! is not `Done`, in a [`line_room`] that was taken once.
#![tactic(auto)]

pub mod config_reading;
mod digits;
pub mod fault_lines;
pub mod line_room;
mod recording_faults;
mod refused;
mod status;

pub use recording_faults::recording_fault_of;
pub use refused::status_of;
pub use status::{RecordingFault, Status, StoreFault};
