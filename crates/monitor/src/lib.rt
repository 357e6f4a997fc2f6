//! The commands of the program, over a site of recordings and a sink for texts.
//!
//! `monitor` reads the words of the command line, and calls the command that they name. Its
//! contract is the theorem of the program, one clause: `IsRun` of `specs/Run.antt` says what a run
//! did, by what is shown before it and after it (`crates/status/specs/Shown.antt`). It has a record
//! for each command, as `crates/count_command/specs/CountRun.antt`, and what holds of every run.
//! `table` and `column` are tasks over one file, of which
//! `crates/file_commands/specs/file_tasks/Run.antt` speaks.
//!
//! What `table` prints of a file is `specs/Printed.antt`: the text of the three-point count of ASTM
//! E1049-85, 5.4.4, over its whole level history. Each answer has its cause in what the file is
//! (`crates/file_commands/specs/file_tasks/FileState.antt` and
//! `crates/file_commands/specs/file_tasks/Answer.antt`), the named file alone is asked for, and all
//! sources are back at the site.
//!
//! A recording is read in pieces of 64 KiB, into a `recount::RunningCount` by range. The levels of
//! a piece are put into a buffer, its points are found in their place and read by the run, which
//! hands over the half units as it counts them: nothing of the recording is kept. `table` takes 96
//! KiB for the pieces and 10 bytes for each class, all before the first sample, and each sample
//! takes constant time.
#![tactic(auto)]

mod column;
mod command;
mod counting;
mod demo;
mod grid;
/// What the definitions come to in numbers. They take them from constants: a law tells them as
/// numerals, by what they do.
pub mod laws;
mod read;
mod refused;
mod table;
mod top;

pub use command::table_command;
pub use top::monitor;
