//! `init`: the store of a site is made.
//!
//! The configuration is read, then the head of each recording in order of gauge, and then the store
//! is made and `init G` told, with the number of gauges. Nothing is written before the last head
//! was read. `specs/Init.antt` says which answer has which cause, and what is there at each moment,
//! and `specs/Asked.antt` which files are asked for.
#![tactic(auto)]

mod command;
mod heads;
mod making;

pub use command::init_command;
