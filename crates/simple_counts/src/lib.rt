//! Peaks, valleys and simple ranges of a level history (ASTM E1049-85, 5.2 and 5.3).
//!
//! `Simple` keeps the ends of the history, the ranges but the last one, which may still grow, and
//! one table for peaks, from the reference on, and valleys, below it. A level changes a table only
//! where it decides a point. It takes levels one at a time, the points of a history at once (the
//! peaks and valleys are those that the crossings' pass tells), another part that follows, or
//! counts that were kept. `clear` is one pass over the places; only `new` takes memory.
//!
//! [`level_crossing`] counts the crossings of each boundary (5.1), over the same points.
#![tactic(auto)]

/// Laws over the definitions alone.
pub mod laws;
pub mod level_crossing;
mod points;
mod simple;

pub use simple::Simple;
