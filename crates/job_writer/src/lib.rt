//! Jobs as texts: every key of a job is written, and reading the text gives that very job.
//!
//! Cost: time that grows with the text.
#![tactic(auto)]

mod called;
mod pairs;
mod settings;
mod text;
mod views;

pub use text::plain_job;
