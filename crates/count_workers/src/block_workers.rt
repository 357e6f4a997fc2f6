//! Readers and workers: what they do with one block.
//!
//! A reader takes up to 16 blocks of its lane, fills a unit with each and deals them to its rings,
//! one ring to a worker. A worker takes its rings one after another, each to its mark, counts each
//! block, or has its helper count it ([`crew`](crate::crew)), and feeds it to its return ring. All
//! memory stands before a round; nobody here takes any.
//!
//! `specs/block_workers/Dealing.antt` says what goes through the rings,
//! `specs/block_workers/Reading.antt` what a reader reads and how it ends,
//! `specs/block_workers/Working.antt` what a worker counts, and `specs/block_workers/Jobs.antt`
//! what a round does to all of them. A feed that finds no place and a worker that finds no item try
//! again after a yield. These are the waits; a ring has room for a whole round, so no feed waits.

mod desk;
mod item;
mod jobs;
mod waits;
mod worker;

pub use desk::{Desk, mark_lane, read_block};
pub use item::{Back, Item};
pub use jobs::{Reader, settle_all};
pub use worker::{Worker, begin_work, end_work, fetch, is_helped, is_waiting, work_once};
