//! The head of a store: its bytes, and its first fault in the order of the file.
//!
//! `specs/store_head/Head.antt` is the format of either version; numbers are big-endian. Version 1
//! has bodies in layout one and at most 128 classes, version 2 bodies in layout two.
//! `specs/store_head/HeadFaults.antt` has the first fault of an image against a setup. Both
//! directions meet: where no fault is found the bytes are those of the setup (`front_is`,
//! `gauge_is`), and of an image with the head no fault is found (`no_fault`).
//!
//! `bytes_of` makes the image of a store without bodies. Cost: one pass over the gauges.

mod fault;
mod head_faults;
mod numbers;
mod setup;
mod writing;

pub use fault::{Field, HeadFault};
pub use head_faults::{front_fault, gauge_fault, layout_of, recording_in};
pub use setup::{FRONT_LENGTH, GAUGE_LENGTH, StoreHead};
pub use writing::bytes_of;
