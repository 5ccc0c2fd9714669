//! A part as a text of OFF, which every reader here reads back as that very part.
#![tactic(auto)]

mod coordinates;
mod lines;
#[cfg(test)]
mod tests;
mod text;

pub use text::off_text;
