//! The commands over CSV files and recordings, and what commands over files have to do.
//!
//! [`column_command`] makes a recording of a CSV column, [`sheet_command`] a CSV text of
//! recordings; [`file_tasks`] says what may be answered for a file that is read by itself.
#![tactic(auto)]

pub mod column_command;
pub mod file_tasks;
pub mod sheet_command;
