//! Points, vectors and directions of whole numbers, their exact products, and what a drawing is made of.
//!
//! A view is a parallel projection along its direction (Foley and van Dam, view coordinates): right axis, up axis and
//! direction are a right-handed system, as the viewer sees them. U and V of a point are its scalar products with the
//! right and the up axis, and its height is that with the direction. All lengths are in units. Sizes are kept in the
//! types, so that no product overflows. No call takes memory but `Soup::copy`, which copies a
//! whole part. The others take constant time, but for `same_sight`, which compares two pairs of fractions, and `Line::lowest`
//! and `Line::through`, which take two greatest common divisors.
#![tactic(auto)]

mod cuts;
mod lines;
mod normals;
mod pieces;
mod points;
mod products;
mod soup;
mod spans;

pub use cuts::{Cut, CutFault};
pub use lines::Line;
pub use normals::Normal;
pub use pieces::{Crease, HatchLine, Piece, Strip, StripKind, Style, ViewSpec};
pub use points::{Axis, Corner, Dir, DirFault, Spot, Vector};
pub use products::{across, cross, det3, height, same_sight, upward, view_cross};
pub use soup::{Soup, Tri};
pub use spans::Span;
