//! The words behind the program's name: `PART [--job JOB] [--out OUT]`.
#![tactic(auto)]

mod errors;
mod words;

pub use errors::WordsError;
pub use words::{Words, read_words};
