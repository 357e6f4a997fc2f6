//! The adapters over the real outside: files of the current folder, the file of the store, streams,
//! and the words of the command line.
//!
//! They are the trusted edge, and meet the contracts of the outside: a source gives what its reader
//! gives, and an output is what its writer holds, where these tell it. Of a real file and a
//! terminal no contract tells. Each counts the errors of the system that it met, and tells their
//! reasons to the operator (`Reasons`).
//!
//! A store is opened as the command needs it (`StoreAccess`): a command that writes it holds it
//! until the program ends, and one that reads it waits for nobody. No contract can speak of another
//! program, so that is tried by the scripts in `tests/` alone.
#![tactic(auto)]

mod folder;
mod named_file;
mod pass_over;
mod reasons;
mod store_access;
mod store_file;
mod store_opening;
mod streams;
mod words;

pub use folder::FolderSite;
pub use named_file::NamedFile;
pub use pass_over::PassOver;
pub use reasons::Reasons;
pub use store_access::StoreAccess;
pub use store_file::FileStation;
pub use streams::{FileSource, OutputSink};
pub use words::{WordFault, words_of};
