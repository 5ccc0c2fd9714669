// A sound part and its readers.
ghost use Rattle.std.specs.Prelude.{◌≡◌, ℕ, ◌+◌, ◌-◌, ◌*◌, ◌<◌, ◌≤◌, ◌^◌, List, ℤ, pos, ◌+ℤ◌, ◌*ℤ◌, ◌<ℤ◌, ◌≤ℤ◌, unsigned_abs, length, slice_get, Some, OnOk, IfOk, IfErr};
ghost use Rattle.std.specs.List.{All};
ghost use Rattle.lattice.specs.Triangles.{IsBelow};
ghost use Rattle.geometry.specs.Parts.{Face, IsHalf, IsTwin, HasNoFlatTriangle, HasNoSideTwice, IsClosed, HasNoDouble, AreEdges, IsNumbered, part_with, part_of};
ghost use Rattle.geometry.specs.Sound.{IsSound};
ghost use Rattle.solid_mesh.specs.inner.Halves.{AreTwins, lower_halves_of};
ghost use Rattle.solid_mesh.specs.Meetings.{HaveCommonX, HaveCommonBox, IsAtMostPairs};
ghost use Rattle.solid_mesh.specs.inner.Meetings.{HasNoMeeting};
ghost use Rattle.solid_mesh.specs.Stars.{AreStars, lists_of};

use crate::edges::{find_edges, pair_sides};
use crate::faults::MeshError;
use crate::pairs::PairMeter;
use crate::sides::ends;
use crate::signs::facing_sign;
use crate::spots::spot_at;
use crate::stars::find_stars;
use exact_frac::Frac;
use lattice::{Corner, Dir, Soup, Spot, Tri};
use std::alloc::Global;

/// The numbers of an edge's two corners, and of the triangles to its left and to its right as one goes from `a` to `b`
/// on the side that the normals point to.
#[derive(Clone, Copy, PartialEq, Eq, Debug)]
pub struct Edge {
    pub a: u32,
    pub b: u32,
    pub left: u32,
    pub right: u32,
}

/// A sound part: it is closed, no two triangles have the same three corners, and edges meet triangles in shared corners only.
/// Half `3t + s` is the directed side `s` of triangle `t`.
#[derive(Debug, Drop)]
pub struct Solid {
    corners: Vec<Corner>,
    triangles: Vec<Tri>,
    twins: Vec<u32>,
    lower_halves: Vec<u32>,
    stars: Vec<Vec<u32>>,
    ghost some_triangle: { 0 < length triangles.items },
    ghost few_corners: { length corners.items ≤ 60000 },
    ghost few_triangles: { length triangles.items ≤ 20000 },
    ghost in_range: { All (IsBelow (length corners.items)) triangles.items },
    ghost none_flat: { HasNoFlatTriangle (part_with corners.items triangles.items) },
    ghost once: { HasNoSideTwice (part_with corners.items triangles.items) },
    ghost paired: { AreTwins triangles.items twins.items },
    ghost lower: { lower_halves.items ≡ lower_halves_of twins.items },
    ghost no_double: { HasNoDouble (part_with corners.items triangles.items) },
    ghost apart: { HasNoMeeting (part_with corners.items triangles.items) },
    ghost around: { AreStars (length corners.items) triangles.items (length triangles.items) (lists_of stars.items) },
}

impl Solid {
    ghost use Rattle.lattice.specs.Points.{of_dir, of_spot};
    ghost use Rattle.geometry.specs.Faces.{IsPointOfEdge, share_point};
    ghost use Rattle.geometry.specs.Parts as parts;
    ghost use Rattle.geometry.specs.Views.{face_sign};
    ghost use Rattle.solid_mesh.specs.Solids.{solid_part, edge_halves, IsEdgeAt, IsWithinPart, HasNumbers, AreTrianglesAt, IsRefusedFor};

    /// The solid with these corners and triangles, at most 60,000 and 20,000, or the first fault: a flat triangle, a directed
    /// side that occurs twice, one whose reverse is missing, two triangles on the same three corners, or an edge that meets a
    /// triangle in another point than a shared corner, looked for in this order and told with the least numbers. Takes the time
    /// of a hash for each directed side, of sorting the triangles, of a walk over a tree of boxes for each edge, and of a short
    /// test for each triangle whose box meets that of the edge, a fan around a corner of the edge left out where the edge is seen
    /// to pass by: about as long as sorting where these are few, and up to every pair where all boxes overlap. The walks end with
    /// the first edge that meets a triangle so. Each reader takes constant time and no memory.
    pub fn check(alloc: Global, soup: Soup) -> Result<Solid, MeshError>
        requires some_triangle { 0 < length (part_of soup).triangles }
        requires few_corners { length (part_of soup).corners ≤ 60000 }
        requires few_triangles { length (part_of soup).triangles ≤ 20000 }
        ensures part { IfOk result (λ s. solid_part s ≡ part_of soup) }
        ensures sound { OnOk result (IsSound (part_of soup)) }
        ensures refused { IfErr result (IsRefusedFor (part_of soup)) }
    {
        let mut meter = PairMeter { boxes: 0, pairs: 0 };
        Solid::check_metered(alloc, soup, &mut meter)
    }

    /// The same, with a meter of its tests: boxes rises by at most the number of pairs of an edge and a triangle whose ranges of
    /// x meet, and pairs by at most the number of those whose boxes meet. Comparisons with the boxes of more than one triangle
    /// are not counted.
    pub fn check_metered(
        alloc: Global,
        soup: Soup,
        meter: &mut PairMeter,
    ) -> Result<Solid, MeshError>
        requires some_triangle { 0 < length (part_of soup).triangles }
        requires few_corners { length (part_of soup).corners ≤ 60000 }
        requires few_triangles { length (part_of soup).triangles ≤ 20000 }
        requires old_boxes { meter.old.boxes < 2 ^ 63 }
        requires old_pairs { meter.old.pairs < 2 ^ 63 }
        ensures part { IfOk result (λ s. solid_part s ≡ part_of soup) }
        ensures sound { OnOk result (IsSound (part_of soup)) }
        ensures refused { IfErr result (IsRefusedFor (part_of soup)) }
        ensures more_boxes { meter.old.boxes ≤ meter.new.boxes }
        ensures more_pairs { meter.old.pairs ≤ meter.new.pairs }
        ensures boxes { (halves : List ℕ) → AreEdges (part_of soup) halves
            → IsAtMostPairs (HaveCommonX (part_of soup)) halves (meter.new.boxes - meter.old.boxes) }
        ensures pairs { (halves : List ℕ) → AreEdges (part_of soup) halves
            → IsAtMostPairs (HaveCommonBox (part_of soup)) halves (meter.new.pairs - meter.old.pairs) }
    {
        let twins = pair_sides(alloc, &soup)?;
        let lower_halves = find_edges(alloc, &soup, &twins, meter)?;
        let stars = find_stars(alloc, &soup)?;
        let Soup { corners, triangles } = soup;
        Ok(Solid {
            corners,
            triangles,
            twins,
            lower_halves,
            stars,
        })
    }

    /// The number of corners.
    pub fn corners(&self) -> u32
        ensures { result ≡ length (solid_part self.now).corners }
    {
        self.corners.len() as u32
    }

    /// The number of triangles, which are a sound part.
    pub fn triangles(&self) -> u32
        ensures count { result ≡ length (solid_part self.now).triangles }
        ensures sound { IsSound (solid_part self.now) }
    {
        self.triangles.len() as u32
    }

    /// The number of edges, which go along the lower halves in their order.
    pub fn edges(&self) -> u32
        ensures count { result ≡ length (edge_halves self.now) }
        ensures numbered { AreEdges (solid_part self.now) (edge_halves self.now) }
    {
        self.lower_halves.len() as u32
    }

    /// The corner with this number, in units.
    pub fn corner(&self, i: u32) -> Corner
        requires { i < length (solid_part self.now).corners }
        ensures { slice_get (solid_part self.now).corners i ≡ Some result }
    {
        self.corners[i as usize]
    }

    /// The triangle with this number.
    pub fn triangle(&self, i: u32) -> Tri
        requires { i < length (solid_part self.now).triangles }
        ensures listed { slice_get (solid_part self.now).triangles i ≡ Some result }
        ensures within { IsBelow (length (solid_part self.now).corners) result }
    {
        self.triangles[i as usize]
    }

    /// The triangles that have this corner, in ascending order.
    pub fn star(&self, corner: u32) -> &[u32]
        requires { corner < length (solid_part self.now).corners }
        ensures at { AreTrianglesAt (solid_part self.now) corner result.now }
        ensures within { All (λ i. i < length (solid_part self.now).triangles) result.now }
    {
        &self.stars[corner as usize]
    }

    /// The half between the same two corners that goes back.
    pub fn twin(&self, half: u32) -> u32
        requires { half < 3 * length (solid_part self.now).triangles }
        ensures twin { IsTwin (solid_part self.now) half result }
        ensures within { result < 3 * length (solid_part self.now).triangles }
    {
        self.twins[half as usize]
    }

    /// The edge with this number, along the lower of its two halves.
    pub fn edge(&self, i: u32) -> Edge
        requires { i < length (edge_halves self.now) }
        ensures edge { IsEdgeAt (solid_part self.now) (edge_halves self.now) i result }
        ensures each { (e : parts.Edge (solid_part self.now)) → IsNumbered (edge_halves self.now) i e → HasNumbers e result }
        ensures within { IsWithinPart (solid_part self.now) result }
    {
        let half = self.lower_halves[i as usize];
        let other = self.twins[half as usize];
        let (left, right) = (half / 3, other / 3);
        let (a, b) = ends(&self.triangles[left as usize], half % 3);
        Edge { a, b, left, right }
    }

    /// 1 if the triangle is turned to the viewer, -1 if it is turned away, 0 if it is seen edge-on.
    pub fn sign(&self, d: &Dir, tri: u32) -> i8
        requires { tri < length (solid_part self.now).triangles }
        ensures { (f : Face (solid_part self.now)) → f.number ≡ tri → result ≡ face_sign (of_dir d.now) f }
    {
        let Tri { a, b, c } = self.triangle(tri);
        facing_sign(d, &self.corner(a), &self.corner(b), &self.corner(c))
    }

    /// The spot at the share `t` of the way along an edge, from 0 at its corner `a` to 1 at its corner `b`.
    pub fn spot(&self, edge: u32, t: &Frac) -> Spot
        requires edge { edge < length (edge_halves self.now) }
        requires from_start { pos 0 ≤ℤ t.now.num }
        requires to_end { t.now.num ≤ℤ t.now.den }
        requires small { unsigned_abs t.now.den < 2 ^ 69 }
        ensures at { (e : parts.Edge (solid_part self.now)) → IsNumbered (edge_halves self.now) edge e →
            of_spot result ≡ share_point e.a e.b t.now.num t.now.den }
        ensures on_edge { (e : parts.Edge (solid_part self.now)) → IsNumbered (edge_halves self.now) edge e →
            IsPointOfEdge e.a e.b (of_spot result) }
    {
        let Edge {
            a,
            b,
            left: _,
            right: _,
        } = self.edge(edge);
        spot_at(&self.corner(a), &self.corner(b), t)
    }
}
