//! Where a plane cuts a solid: the border of the section, in closed loops, and what is inside.
//!
//! A triangle with corners on both sides of the plane has one border segment, between the two of its sides that cross the
//! plane. From the end of a segment the loop goes on in the triangle on the other side. A point is in the section where an
//! odd number of segments are to its right (Foley and van Dam, the rule of even and odd), so it plays no part which way the
//! triangles' normals point. Along an edge its points are in the section by turns, between the places at which borders cross it.
#![tactic(auto)]

mod loops;
mod parity;
mod places;
mod seen;
mod segments;
mod side_crossings;

pub use loops::{Section, borders, has_segment};
pub use parity::{inside, is_right_of};
pub use places::{EdgeAt, crossing, crossings};
pub use seen::{InView, seen_corner};
pub use segments::Segment;
pub use side_crossings::over;
