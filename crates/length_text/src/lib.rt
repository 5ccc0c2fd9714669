//! Lengths as a sheet and its lines say them: exact in millimetres, or in inches with four decimals.
#![tactic(auto)]

mod inches;
mod millimetres;
mod places;

pub use inches::{inch_parts, inch_text};
pub use millimetres::mm_text;
pub use places::{LengthForm, length_text};
