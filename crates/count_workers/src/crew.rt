//! Helpers: threads that count for the workers of a run, over all its rounds.
//!
//! A worker whose thread reads and collects has a `Line` to a `Helper`: it hands blocks out and
//! takes their counts back in the order in which it gave them. [`help_all`] counts with all
//! [`Helpers`] in threads of its own until their lines have ended, so no round starts a thread. No
//! helper belongs to a thread: a thread takes in hand one after another, as far as no other has it,
//! and so does one that has nothing else to do just now ([`Helpers::count_some`]). Before the first
//! thread has begun workers count for themselves. Whoever counts a block passes the gate before.
//!
//! No clause follows a unit through another thread, so a line keeps a receipt of each block that is
//! under way, and takes a count back only where it is that of the oldest. Another is dropped, and
//! the line waits on: rather no answer than a wrong one.
//!
//! A thread that finds nothing looks some more, and then sleeps by their `Bell`. It waits for
//! nothing but blocks, and for no lock; a worker waits for nothing but counts of blocks that it
//! gave. All memory of a line is taken by `new_line`.

mod bell;
mod helper;
mod line;

pub(crate) use bell::Bell;
pub(crate) use helper::{Helper, Job};
pub use helper::{Helpers, help_all};
pub(crate) use line::{Line, new_line};
