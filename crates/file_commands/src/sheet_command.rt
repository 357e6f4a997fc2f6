//! `sheet`: the recordings of a site as one CSV text, with a column for each gauge.
//!
//! All recordings are read whole, in order of gauge, and the text is written once it is known
//! (`specs/sheet_command/Sheet.antt`). The text is that of `csv_recording`, under the gauges'
//! names.
//!
//! It takes memory for all samples, and for the text twice.

mod command;
mod reading;
mod writing;

pub use command::sheet_command;
