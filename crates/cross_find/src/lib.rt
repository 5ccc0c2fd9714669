//! The single tests by which the counts of nearer faces are carried along edges and around corners (Appel 1967).
//!
//! Two counts belong to each point of an edge: how many faces are strictly nearer there and reach to the left of the edge's line,
//! as it is seen, and how many reach to its right. Faces that are seen edge-on are never counted. Appel counts the faces once at an
//! end of an edge, and from there changes the count only where an outline passes nearer. So three tests are enough:
//!
//! - `cover_test`: whether a triangle is counted to the left, and to the right, next to an end of an edge. Next to an end a value
//!   that is linear along the edge has the sign that it has at the end or, where it is 0 there, at the other end. Three such values
//!   say whether the edge runs within the triangle's three sides, as they are seen, and one whether it runs behind its plane.
//! - `cross_test`: where an outline passes nearer over an edge, and by how much the two counts change there. A corner of the
//!   outline on the edge's line counts as standing to its right for the left count, and to its left for the right count.
//! - `corner_test`: by how much an outline changes the two counts about a corner, from the end of one edge there to that of another.
//!   Next to its end an edge's left count is that of the faces over its way perturbed to the left. So the turn goes
//!   counterclockwise, less than once around, from the first edge's perturbed way to the second's. An outline that passes nearer over the
//!   corner changes the count where the turn passes the way to one of its ends. Faces and outlines that have the corner are left
//!   out: there the triangles at the corner are tested again. Left and right are those along the edge from its first end, and are
//!   exchanged as they are seen from its second.
//!
//! No perturbed way is made. Whether a way is to the left of another is the sign of the turn between them and, where the two are
//! along one line, that of their product times how far their perturbations are apart. So an end of an outline that is seen along an
//! edge is to one side of its perturbed way. Two perturbations of one way to one side are the same, and the turn between them, as
//! from an edge to itself, passes nothing, and not all ways around.
//!
//! Deviations from Appel: 1) there are two counts in place of one, since outlines may run along the edge's line or end on it;
//! 2) all is decided by signs of determinants of whole coordinates, and the place of a crossing is the quotient of two of them,
//! so nothing is rounded; 3) an outline may pass just over a corner that it doesn't have, and the counts change about it.
//!
//! Each test takes constant time and no memory, and most are over early:
//!
//! - `cover_test` forms no determinant where the triangle's three corners are strictly to one side of the end, along an axis at right
//!   angles to the direction: no point of the triangle is then on the line of sight of the end. Along an axis of the part on which
//!   the direction has the component 0 that takes comparisons of coordinates alone; where there is no such axis, three scalar
//!   products with the right axis. Else it forms at most eleven determinants: that of the facing, three sides at the end, of which
//!   the first below 0 is the last, each value at the other end only where that at this end is 0, and three that tell where the
//!   triangle reaches, only where it is nearer.
//! - `cross_test` forms two determinants, which tell on which sides of the edge's line the two ends of the outline are seen. Where that
//!   is one side, or both are on the line, no count changes. Their difference is the denominator of the place. Else it forms a third for
//!   the place, a fourth for the height where the place is within the edge, and the signs of two faces where the outline is nearer.
//! - `corner_test` forms four scalar products and a turn between two ways, and for the few outlines that are seen in line with the corner
//!   four products and two heights; where one is nearer over the corner, four scalar products, twelve turns and twelve products.
//!
//! Each test raises the count of tests in a `Meter` by one. A `Sight` hands out these tests, the numbers of edges and the
//! triangles at a corner, and no coordinate, so that what is found through it is found by counted tests; `SolidSight` is that of a
//! solid in a direction.
#![tactic(auto)]

mod corner;
mod cover;
mod cross;
mod edges;
mod meter;
mod sight;
mod solid_sight;
mod turns;
mod ways;

pub use cover::{TriangleCorners, any_above, any_below, corners_of, cover_test, hides_at};
pub use cross::{
    CountChanges, Sides, count_changes, cross_test, left_mark, passing, right_mark, sides_of,
    times, turn_of,
};
pub use edges::{ends, orientation_of};
pub use meter::{Crossing, End, Meter, Turn};
pub use sight::Sight;
pub use solid_sight::SolidSight;
pub use turns::corner_test;
