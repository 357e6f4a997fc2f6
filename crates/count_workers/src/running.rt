//! A whole round of readers, workers and collector.
//!
//! The thread of the round reads the lanes, block by block. With one worker that thread is the
//! worker too: each block is counted and placed before the next is read, while it is near. Where
//! helpers count for the workers ([`crew`](crate::crew)), that thread hands each block to a helper
//! when it was read, and places what has come back. Several workers without helpers begin when all
//! lanes were read, on threads that are started for the round, and what they counted is placed when
//! they have ended: all that they take is there, so none waits for another. In each way each ring
//! takes the same items.
//!
//! `specs/running/Going.antt` says what goes on between two blocks. No call here takes memory.

mod lanes;
mod passing;
mod round;

pub use round::run_round;
