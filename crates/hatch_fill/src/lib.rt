//! The hatching of a section: lines at 45 degrees that fill it.
//!
//! Hatch lines are where U - V is a whole multiple of the spacing. The borders of the section cross such a line at places
//! between which the section begins and ends, in turn. All places of all lines are sorted at once, first by the line and then
//! along it, so the time is near linear in the number of border segments and of their crossings with hatch lines.
#![tactic(auto)]

mod crossings;
mod filling;
mod lines;
mod meetings;
mod numbers;
mod pairing;
mod places;
mod stretches;

pub use filling::hatch;
pub use pairing::chords;
