//! What a run shows to a watcher beside its puts, and what is told of what the watcher saw.
//!
//! [`Watch`] has all that a run needs for that, with its memory: the two ends of a live view, the
//! line, and the ends of gauges that were seen. [`watch_rounds`] makes the rounds of `count`, shows
//! each held segment, and lets a watcher look on a thread of its own; [`tell_seen`] then tells what
//! it saw. `specs/watching/Seen.antt` says which lines these are.
//!
//! The watcher sleeps between its looks: each show rings a bell, and it looks behind a ring.
//! Nothing waits for the watcher but a show that comes while it copies the view, and the end of the
//! rounds, for one look at most. No clause says that the watcher runs beside the puts, nor how
//! often it looks.
//!
//! Cost: a show, a wake and a look for each put, which is a passing over the pairs of levels of a
//! gauge and a copy of all rows. No call but [`Watch::new`] and a show takes memory.

mod bell;
mod ends;
mod lookout;
mod put_shower;
mod rounds;
mod seen_telling;
mod watch;

pub use ends::SeenEnds;
pub use rounds::watch_rounds;
pub use seen_telling::tell_seen;
pub use std::alloc::AllocError as OutOfMemory;
pub use watch::{Watch, Watched};
