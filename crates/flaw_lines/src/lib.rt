//! What is wrong with a job of version 3, as a line says it: its place, what is wrong, and what is allowed.
#![tactic(auto)]

mod key_lines;
mod keys;
mod lines;
mod placed;
mod tables;
mod views;

pub use placed::flaw_text;
