//! A large sample part: cubes in rows, for trying out what takes long.
//!
//! All lengths are in units.
#![tactic(auto)]

mod cubes;
mod errors;
mod faces;
mod sample;

pub use errors::SampleError;
pub use sample::boxes;
