//! Tests of the desk of real files: files, a pipe, texts that are said and warned, what a desk doesn't overwrite, and why a call
//! failed. And a desk that says what a fetch does to it.
#![tactic(auto)]

mod counted;
#[cfg(test)]
mod files;
#[cfg(test)]
mod folders;
#[cfg(test)]
mod names;
#[cfg(test)]
mod reasons;
#[cfg(test)]
mod words;

pub use counted::Counted;
