//! Strips of lines put together to the pieces of a view.
//!
//! Lines are numbered in the order in which they are first seen, by a table that hashes each strip's line once. Then the strips are
//! gone through in the order of these numbers, and those of one line are put together at a time: their ends take more memory than
//! the strips, and so they are there for one line alone. The places of all lines are in one order, first by the number of their line
//! and then along it, so what was put together line by line is all strips put together.
//!
//! `merge` has all strips in one list; a `LineMerge` takes them as they come, if they come in the order of their lines' numbers.
#![tactic(auto)]

mod by_line;
mod ends;
mod merging;
mod numbering;
mod pieces;

pub use by_line::{LineMerge, merge};
