//! Flips of slivers, the triangles of a part that are nearly flat.
//!
//! Once corners are whole units, such a triangle may turn over or cross a neighbour. A flip takes it and the neighbour at its longest
//! side, and exchanges that side for the other diagonal of the two; `specs/Flips` says when, and `specs/Near` how far points move.
//! `flip_slivers` makes flips until none is left, within a limit; `without_pairs` drops triangles that lie on each other, turned opposite.
#![tactic(auto)]

mod bounded;
mod choices;
mod heights;
mod lists;
mod making;
mod measures;
mod pairs;
mod queue;
mod settling;
#[cfg(test)]
mod tests;

pub use bounded::Bounded;
pub use pairs::without_pairs;
pub use settling::{Flipped, flip_slivers};
