//! What is wrong with a part, as a line of `sheet` or `mend` says it: the fault, the place in its text, and what helps.
#![tactic(auto)]

mod coordinate;
mod counts;
mod first;
mod hint;
mod texts;

pub use hint::{PartHint, part_hint};
pub use texts::{advice_text, mesh_text, part_text};
