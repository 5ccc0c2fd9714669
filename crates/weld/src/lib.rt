//! A part as its text gives it, why a text gives none, and what is left of it once equal corners are one.
#![tactic(auto)]

mod fault;
mod raw_part;
mod welding;

pub use fault::{PartError, PartFault, PartKind, Want, Word};
pub use raw_part::RawPart;
pub use welding::WeldError;
