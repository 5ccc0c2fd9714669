//! The lines that a program tells its faults by.
#![tactic(auto)]

mod fixed;
mod line;
mod lines;

pub use line::Line;
pub use lines::{axis_text, key_text, kind_text, line_of, shown, shown_bytes};
