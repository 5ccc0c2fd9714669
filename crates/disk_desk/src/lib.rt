//! The desk of real files, of the standard output and the standard error, and what the programs' mains share.
#![tactic(auto)]

mod disk;
mod identity;
mod program;
mod reading;
mod reasons;
mod writing;

pub use disk::DiskDesk;
pub use program::{without_memory, words_of, words_or_none};
