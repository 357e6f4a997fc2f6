//! The rainflow count of a history that repeats (ASTM E1049-85, 5.4.5), from stored counts alone.
//!
//! The standard arranges such a history to begin and to end with its greatest peak, and counts each
//! range as one cycle, once it is closed. `specs/Repeating.antt` says this over whole level
//! histories. Put behind itself, a history counts two half units more for each of these cycles
//! ([`laws::turned`]), so it need not be turned: what is counted between one repetition and the
//! next is what the residue closes when it is put behind itself. A [`Repeating`] has the cycles of
//! a segment and those; no sample is read again.
//!
//! [`Repeating::new`] takes all memory: 12 bytes for each pair of levels, and 12 for each class.
//! [`Repeating::of`] takes none, and a pass over the pairs.
#![tactic(auto)]

mod copying;
/// Laws over the definitions alone.
pub mod laws;
mod repeating;

pub use repeating::Repeating;
