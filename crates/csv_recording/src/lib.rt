//! CSV files and recordings: the samples in a column of a file, and recordings as a file with a
//! column for each gauge.
//!
//! `specs/Column.antt` says which samples a column has, over the records that `csv`'s own
//! definition gives of the bytes, and `specs/Sheet.antt` which text the sheet of some recordings
//! is. A cell is a whole number, or nothing or `NaN` for a reading that is missing
//! (`specs/Cells.antt`).
//!
//! Cost: a column takes one pass over the bytes, and memory for its samples and one row. A sheet
//! takes memory for its text twice, since it is appended when it is whole.
#![tactic(auto)]

mod cells;
mod columns;
/// Laws over the definitions alone.
pub mod laws;
mod rows;
mod sheets;

pub use columns::{ColumnFault, column};
pub use sheets::sheet;

/// The samples of a recording, in order. A reading that is missing is -2147483648.
pub type Samples = Vec<i32>;
