//! The text of a part, as ASCII STL.
//!
//! Reading goes a fixed number of times over the text, and its time and memory grow with the text.
#![tactic(auto)]

mod facets;
mod keywords;
mod raw;
mod stl;

pub use stl::read_stl;
