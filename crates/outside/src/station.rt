//! The store's disk and the operator's line in one object, so that a contract can say which of a
//! write and a told line came first.
//!
//! The disk model (`specs/station/Station.antt`): between two successful syncs each written range,
//! and all past the length at the last sync, may hold any bytes, and the length may be any between
//! the two. Bytes elsewhere stay. After a successful sync a crash leaves what a read gives. A
//! station has a clock, and a *moment* is the pair of the lines told so far and an image that a
//! crash may leave; moments inside a call count too. `proofs/on_station/Moments.antt` composes a
//! statement on every moment from those on single calls.
//!
//! `MomentStation` keeps a record of all its calls in memory, by which its moments are defined
//! (`specs/station/Calls.antt`), and `crash` gives images that a crash may leave. A write costs a
//! copy of the whole content: it is there for tests.

mod call;
mod crash;
mod moment_station;
mod recorder;
mod station;

pub use call::Call;
pub use crash::Torn;
pub use moment_station::MomentStation;
pub use station::Station;
pub use std::alloc::AllocError as OutOfMemory;
