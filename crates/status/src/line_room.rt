//! Room for one line, taken once: what is written into it takes no memory.
//!
//! Each call that writes a text has two clauses: the text fits behind what is written, and then it
//! stands there. What is left of a line is known to fit, since the whole does.

mod room;

pub use room::LineRoom;
