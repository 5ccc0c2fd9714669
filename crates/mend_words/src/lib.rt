//! The words behind the program's name: `PART [--out OUT] [--decimals K] [--limit N]`, or `--help` or `--version`.
#![tactic(auto)]

mod numbers;
mod request;
#[cfg(test)]
mod tests;
mod words;

pub use request::{Asked, MendRequest, Out};
pub use words::read_words;
