//! How wide a text is in Helvetica, and in what size it fits a place.
//!
//! A text that is too wide for its place is set smaller, down to the least size that can be read there, and then cut. So by the widths
//! that are known here it never leaves its place. Cost: time that grows with the text.
#![tactic(auto)]

mod fit;
#[cfg(test)]
mod tests;
mod widths;

pub use fit::{Fitted, Room, fit_text};
pub use widths::text_width;
