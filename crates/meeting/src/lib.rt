//! Whether an edge and a triangle have a common point, and whether their boxes have.
//!
//! The triangle is seen along a direction in which its corners run counterclockwise. How far an edge is to the left of a
//! side, and how far it is above the triangle's plane, are linear along the edge: so the signs of some determinants of
//! coordinates, and the order of some products of two of them, decide, for an edge that goes through the plane and for
//! one in it. A flat triangle is its two sides from the first corner, and two edges are compared by such determinants too.
//! No point is constructed, no tolerance is taken, and no number leaves 128 bits. No call takes memory, and each takes
//! constant time. All lengths are in units.
#![tactic(auto)]

mod boxes;
mod course;
mod edges;
mod places;
mod range;
mod touching;

pub use boxes::{boxes_meet, edge_range, ranges_meet, triangle_range};
pub use range::Range;
pub use touching::{touches, touches_beyond};
