//! Whether visible lines of a view run so near one another that they read as one, and which scale shows them apart.
#![tactic(auto)]

mod chunk;
mod chunks;
mod extent;
mod near;
mod scales;
mod sides;
#[cfg(test)]
mod tests;

pub use scales::{Nearness, nearness_of};
pub use sides::{Side, add_sides};
