//! Where a fault of a surface is.
//!
//! A fault names a side, an edge or triangles, by their numbers. Where an edge meets a triangle its place is the first point of the
//! edge that the triangle has, rounded to whole units. Of two triangles it is the middle of the box that both have in common; so each
//! point that they have in common is in that box around it (lemma `in_both`). Of a fault with one figure it is the middle of that
//! one's box.
#![tactic(auto)]

mod along;
mod bounds;
mod first_point;
mod halves;
mod place;
mod reach;
mod weights;

pub use place::fault_place;
