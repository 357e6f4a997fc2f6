//! The printed texts: the table of a recording, the text of a gauge, the line of a detail, and the
//! text of a gauge whose history repeats.
//!
//! `specs/Texts.antt` and `specs/Repeat.antt` have each text as a function of its numbers. A `Page`
//! reserves room for the longest text once, and the calls write into it and take no memory: what is
//! left of a text is known to fit, since the whole does.
//!
//! Cost: a decimal and a copy for each number. The matrix asks for each pair of levels, and so does
//! the text of a history that repeats.
#![tactic(auto)]

mod detail;
mod gauge;
mod lines;
mod page;
mod repeat;
mod table;
mod window;

pub use detail::detail_text;
pub use gauge::gauge_text;
pub use page::Page;
pub use repeat::repeat_text;
pub use table::table_text;
pub use window::window_line;
