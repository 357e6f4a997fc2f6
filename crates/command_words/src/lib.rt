//! The words of the command line: the command that the first word names, with the values of the
//! words behind it.
//!
//! `specs/Line.antt` has the meaning. The words behind the first are read by `clap`, as one simple
//! command without subcommands, and the definition names `clap`'s own: its rules, the fault of the
//! words, and what a getter finds. A request for help is a refusal. Numbers are those of Rust's
//! `parse`, so `+2` and `02` are 2; an id is read by `hex`, an instant by `jiff`.
//!
//! A command of its own is a builder, a reader and a line of `read_words`.
//!
//! Cost: what `clap` takes, once a run.
#![tactic(auto)]

mod command;
mod id;
mod instant;
mod number;
mod options;
mod parse;
mod readers;

pub use command::{Command, MAX_PERIOD_US};
pub use readers::read_words;
