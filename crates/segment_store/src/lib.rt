//! The store of counted segments: bodies on a station, one behind the other, each behind a gate.
//!
//! `specs/Image.antt` says which images read, and as what: a head, open gates with their bodies,
//! and a gate that is closed. `put` writes a body, its digest and the next gate, closed, behind the
//! gate that is closed now, in one write; it syncs, opens the gate and syncs again. So at every
//! moment of a put a crash leaves the bodies from before, or those with the new one.
//! `Store::resume` reads what is there after a sync, and tells the first thing that is wrong in the
//! order of the file; of a store that was stopped in a put nothing is wrong. `init` makes a store
//! of version 2.
//!
//! Cost: resuming reads each body once, takes its digest and decodes it, and joins it to the held
//! segment of its gauge. All bodies are decoded into one segment, which is emptied by the cells
//! that it had. A put writes the body once and takes no memory.
#![tactic(auto)]

mod beginning;
mod checking;
mod compacting;
mod damage;
mod fault;
mod filling;
mod heads;
mod held;
mod joining;
/// Laws over the definitions alone.
pub mod laws;
mod opening;
mod putting;
mod resuming;
mod store;
mod visiting;
mod writing;

pub use beginning::init;
pub use compacting::{CompactFault, compact_to};
pub use damage::Damage;
pub use fault::{InitFault, PutFault, ResumeFault};
pub use opening::read_head;
pub use store::Store;
pub use visiting::{Visitor, each_body};
