//! A live view of what is held of the gauges of a site: one end shows segments, the other looks at
//! what was shown, from another thread and without a lock.
//!
//! `specs/Shows.antt` has the view after a list of shows. Each look gives the first view after a
//! list that begins with that of the look before and with the shows of every note that was learnt,
//! and in that list no gauge's end falls. That it is a front of the shows which were made is kept
//! by the rule of the two ends (`specs/Rule.antt`), and no clause says it.
//!
//! The view lies in two copies that take turns (`left_right` of the kit): a look reads the one that
//! is shown, and a show changes the other and then swaps them. The shows themselves are a history
//! (`logbook` of the kit) of which nothing is kept but their number.
//!
//! Cost: [`live`] takes the memory of five views, and a row takes 8 bytes a class and 32 more. A
//! show takes memory for a row, passes over all pairs of levels of its segment, and may wait for a
//! look. A look copies all rows, waits for nothing and takes no memory.
#![tactic(auto)]

mod display;
mod history;
mod opening;
mod row;
mod rule;
mod show;
mod shower;
mod view;
mod watcher;

pub use opening::live;
pub use shower::{Note, Shower};
pub use std::alloc::AllocError as OutOfMemory;
pub use view::View;
pub use watcher::Watcher;
