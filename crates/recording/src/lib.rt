//! Recordings: the bytes of a head and of samples, by the format SGRC (`docs/FORMATS.md`).
//!
//! A recording is a head of 32 bytes and a body of samples, four bytes each. `specs/Head.antt` says
//! what the bytes of a head are and what is wrong with others, `specs/Samples.antt` reads a body as
//! samples and torn bytes, and `specs/Filling.antt` says how a `fill` or a `skip` ends.
//!
//! `fill` takes up to 64 KiB at once into a buffer on the stack (4 KiB for few samples), and takes
//! again until it is full; `skip` has the source skip until all is skipped. So what they give does
//! not depend on the sizes of the source's takes and skips, and a part sample is never kept between
//! calls. Bytes become samples a buffer at a time. No call here takes memory. A `fill` costs the
//! takes and about one copy of the bytes, a `skip` what the skips of its source cost.
//!
//! [`take_all`] fills a buffer of bytes from a source, whatever the bytes are.
//!
//! [`lane_ends`] says how the samples of a block end: whether more may follow.
#![tactic(auto)]

mod ends;
mod filling;
mod head;
pub mod lane_ends;
mod skipping;
mod synth;
mod taking;
mod writing;

pub use ends::{Fill, FillEnd, Skip};
pub use filling::fill;
pub use head::{HEAD_LENGTH, Head, HeadFault, read_head, write_head};
pub use skipping::skip;
pub use synth::Synth;
pub use taking::{ByteFill, Stop, take_all};
pub use writing::write_samples;

/// The samples that a recording is read by, where it is read to its end: 64 KiB. Larger pieces
/// read no faster.
pub const PIECE: usize = 16384;
