//! `audit`: the held samples of each recording are counted again, and compared with what is held.
//!
//! The configuration is read and the store resumed. Then, gauge by gauge, the recording is opened
//! and as many of its samples as are held are counted by the standard's run, in one pass that keeps
//! nothing of the recording. Only when all were counted are they compared, so that a refused
//! recording comes before any difference. Where nothing differs a line of each gauge is printed.
//! `specs/Audited.antt` says what is compared with what, `specs/Answers.antt` which answer comes,
//! and `specs/Asked.antt` which files are asked for.
#![tactic(auto)]

mod audited;
mod command;
mod compared;
mod recounting;
mod same_lines;

pub use command::audit_command;
