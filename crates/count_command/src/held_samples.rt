//! The puts of a round, and the lines that acknowledge them.
//!
//! A line `held NAME N` tells the operator that the first N samples of a gauge are held: it is told
//! when the put of the segment that ends there has returned. `specs/held_samples/Going.antt` says
//! what is true at every moment of such a run: whatever a crash leaves holds at least what was held
//! at entry, and no line acknowledges more than it holds. `specs/held_samples/Told.antt` has the
//! lines, and `specs/held_samples/Pace.antt` says that each comes before the next put.
//!
//! Between a put and its line a [`PutHook`] is handed what is then held of the gauge. What it says
//! of itself by `follows` holds of the store after each call, whatever the call answers. `count`
//! does nothing there: [`NoHook`].
//!
//! Cost: four station calls and a line for each front that is not empty. No call but
//! [`HeldLine::new`] takes memory, unless its hook does.

mod hook;
mod line;
mod storing;

pub use hook::{Behind, NoHook, PutHook};
pub use line::HeldLine;
pub use std::alloc::AllocError as OutOfMemory;
pub use storing::store_fronts;
