//! Segments: what is kept of the samples of one gauge, from one place of its recording to another.
//!
//! A segment has the full cycles and the residue of its level history (the four-point method), the
//! level crossings, peaks, valleys and simple ranges (ASTM E1049-85, 5.1 to 5.3), and how many
//! readings were missing or refused. `specs/Segment.antt` says what it stands for; from its cycles
//! and its residue the standard's own rainflow count of the whole history is told (5.4.4).
//!
//! Any two neighbours join, and the counts of the whole do not depend on where the samples were cut
//! or in which order the parts were joined. Its rules stand in its type: whatever segment meets
//! them goes on to meet them.
//!
//! Only `new` takes memory. A sample, or the whole of a block at once, takes constant time for each
//! level; a joint takes what the right part has in its tally and residue, and a pass over the
//! places of the classes.
//!
//! [`segment_rules`] has the rules of a segment's parts, and the first one that is broken.
#![tactic(auto)]

mod block;
mod classes;
mod counts;
mod fault;
mod neighbours;
mod segment;
pub mod segment_rules;

pub use counts::SampleCounts;
pub use fault::LoadFault;
pub use segment::{JoinRefusal, Segment};
