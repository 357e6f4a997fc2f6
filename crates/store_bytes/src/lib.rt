//! The bytes of the store: of its head, and of the segments behind it.
//!
//! [`store_head`] writes and compares the head, of either version. [`segment_bytes`] writes the
//! body of a segment, in two layouts, and reads bytes as the segment whose body they are, or
//! tells their first fault. The formats are in `docs/FORMATS.md`.
#![tactic(auto)]

pub mod segment_bytes;
pub mod store_head;
