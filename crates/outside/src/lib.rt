//! What a program is handed of the outside: sources of bytes, sinks of bytes, a site of files, and
//! the gate that a worker passes before it counts a block.
//!
//! Each trait says by a ghost member `tells` whether its type tells its content, and names the
//! content by plain members (`left`, `written`, `files`). So code over a trait can speak of the
//! bytes of the outside, and an adapter of the real outside, which tells nothing, keeps the rest.
//! Each object counts its faults. A call answers `Failed` only where this count rose in the call:
//! it is greater afterwards, or stands at the last value of a counter. A take, a skip and a fetch
//! that succeed leave it as it was.
//!
//! The objects in memory fail where they were told to. `BytesSource`, `SteadySource` and `VecSink`
//! fail there and nowhere else, by their clauses. A fetch of `MapSite` fails there, where it has no
//! such file, and where its copy of the file, or of the numbers of the calls that are to fail,
//! finds no memory. The last no clause can rule out: none parts a refused copy from another
//! failure. A take or a put costs one copy of its bytes, a skip nothing, a fetch one copy of the
//! file and of those numbers.
//!
//! A site says besides which names it was asked for, so that a contract can say which files a call
//! reads. A gate promises nothing, so no contract leans on it: it is there for tests.
//!
//! [`station`] is the device that holds a store, with its own faults and moments.
#![tactic(auto)]

mod bytes_source;
mod failed;
mod gate;
mod hold_gate;
mod map_site;
mod sink;
mod site;
mod source;
pub mod station;
mod steady_source;
mod vec_sink;

pub use bytes_source::BytesSource;
pub use failed::Failed;
pub use gate::{Gate, OpenGate};
pub use hold_gate::HoldGate;
pub use map_site::MapSite;
pub use sink::Sink;
pub use site::{MAX_SOURCES_OUT, Site};
pub use source::Source;
pub use std::alloc::AllocError as OutOfMemory;
pub use steady_source::SteadySource;
pub use vec_sink::VecSink;
