//! `column`: a column of a CSV file, written as a recording.
//!
//! The file is read whole, and the recording is written once all its samples are known
//! (`specs/column_command/Task.antt`). Which samples a column has is said by `csv_recording`; that
//! the recording reads as these samples, by `csv_recording::laws::read_back`.
//!
//! It takes memory for the file and for four bytes a row.

mod command;
/// A law over the definitions alone.
pub mod laws;
mod reading;
mod writing;

pub use command::column_command;
pub use reading::MAX_FILE_BYTES;
