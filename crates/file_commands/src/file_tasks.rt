//! What a command over files has to do, and what may be answered for a recording that it reads.
//!
//! `specs/file_tasks/FileState.antt` says what a file is to the reader of recordings: sound, or the
//! first thing that is wrong with it. `specs/file_tasks/Answer.antt` says what may be answered for
//! it, and `specs/file_tasks/Run.antt` what a run of a command did, by what the site and the output
//! show before it and after it. A [`Refusal`] is why a recording is refused, by the reader who
//! doesn't know its gauge.

mod refusal;

pub use refusal::Refusal;
