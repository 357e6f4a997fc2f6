//! What a configuration and the files of its site record: for each gauge its name, its samples, and
//! the bytes behind the last whole one.
//!
//! `specs/recorded/Recorded.antt` is what the commands' contracts speak of, and
//! `specs/recorded/Asked.antt` says which files they ask for. There is no code.
