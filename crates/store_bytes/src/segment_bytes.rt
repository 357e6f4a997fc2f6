//! The body of a segment: its bytes, in two layouts, with one spelling for each segment.
//!
//! `specs/segment_bytes/Grammar.antt` is the format, as it is written and as it is read; numbers
//! are big-endian. The layouts differ in the cells alone: one after the other, or in rows of one
//! lower level.
//!
//! `encode` takes no memory and walks the cells once, row by row. `decode` goes from left to right
//! over the bytes, where rows become cells as they are read, and tells the first number that does
//! not fit; then it tests the rules of the parts. Both directions meet: what is decoded has these
//! bytes, and each body is taken.

mod bin_lists;
mod decoding;
mod encoding;
mod entries;
mod fault;
/// Laws over the definitions alone.
pub mod laws;
mod layout;
mod numbers;
mod parts_reading;
mod reading;
mod row_reading;
mod sizes;
mod writing;

pub use decoding::{decode, decode_into};
pub use encoding::encode;
pub use fault::BytesFault;
pub use layout::{Layout, MAX_CLASSES_ONE};
pub use parts_reading::parts_in;
pub use sizes::max_body;
