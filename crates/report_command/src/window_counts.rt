//! The counts of a window of time: for each gauge the bodies of a store that lie inside, joined.
//!
//! `Windows` is a visitor of a store's bodies. `specs/window_counts/Windows.antt` says what it
//! makes of one body, and `specs/window_counts/Joined.antt` what it holds after all: a body across
//! a border is left out whole.
//!
//! It takes its memory at once, a segment for each gauge.

mod counting;
mod walking;

pub use counting::{Times, Windows};
pub use walking::count_windows;
