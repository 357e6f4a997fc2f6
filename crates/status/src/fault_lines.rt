//! The line that is told of a status, and its telling.
//!
//! `specs/fault_lines/FaultLine.antt` has each line as a function of the status and a name. The
//! room for it is taken once, by [`FaultLine::new`]; to write and to tell it takes no memory. A
//! name is that of a gauge, or of a single file, whose control bytes are told as question marks: so
//! each line is one line, and none begins as a line does that acknowledges samples
//! (`laws::none_acknowledges`).

/// Laws over the definitions alone.
pub mod laws;
mod line;
mod name;
mod store_text;
mod tell;
mod text;

pub use line::FaultLine;
pub use name::name_in;
pub use tell::{tell_fault, tell_no_memory};
