//! The words behind a program's name, read by a table of its options.
#![tactic(auto)]

mod command;
mod sentence;
mod table;
#[cfg(test)]
mod tests;

pub use sentence::{Given, Sentence, read};
pub use table::WordOption;
