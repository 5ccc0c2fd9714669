//! The text of a part, in the plain form of Geomview's OFF.
//!
//! Reading goes a fixed number of times over the text, and its time grows with the text and with what it says: nothing is
//! reserved for vertices or faces that the text doesn't have.
#![tactic(auto)]

mod counts;
mod faces;
mod fan;
mod header;
mod off;
mod vertices;

pub use counts::count_of;
pub use off::read_off;
