//! Windows of time over the samples of a gauge.
//!
//! An instant is a whole number of nanoseconds. Sample 0 of each gauge stands at the start, and the
//! others follow a period apart. `specs/windows/Window.antt` says which bodies of a store lie
//! inside a window, and which samples they name.

mod window;

pub use window::inside;
