//! Where an edge is hidden, by a direct test of all faces.
//!
//! Along an edge each face hides at most one interval: within its three sides as they are seen, and behind its plane. A
//! face that is edge-on hides exactly what its sides hide. What the intervals of all faces leave is visible. Everything
//! is decided by signs of determinants of coordinates and by the order of fractions; no point is constructed and no
//! number leaves 128 bits. (Appel 1967 finds the same by carrying a count along the edge.)
//!
//! In a cut view only the part of the edge beyond the plane is seen. What the plane leaves of the faces hides it there, and
//! so does the section. The spans are found along the whole edge, and then clipped to that part.
#![tactic(auto)]

ghost use Rattle.std.specs.Prelude.{◌≡◌, ◌<◌, length, IfOk};
ghost use Rattle.lattice.specs.Points.{of_dir};
ghost use Rattle.lattice.specs.Cuts.{plane_of, toward_of};
ghost use Rattle.geometry.specs.Parts.{Edge, IsNumbered};
ghost use Rattle.geometry.specs.Views.{IsEndOn};
ghost use Rattle.geometry.specs.Cuts.{IsHiddenInCut};
ghost use Rattle.solid_mesh.specs.Solids.{solid_part, edge_halves};
ghost use Rattle.cut_plane.specs.Loops.{AreBorders};
ghost use Rattle.span_slow.specs.Spans.{AreSpans};
ghost use Rattle.span_slow.specs.inner.CutHidden.{AreWhereBeyond};
ghost use Rattle.span_slow.specs.CutSpans.{AreCutSpans};
ghost use Rattle.span_slow.specs.Views.{direction_in, IsViewOf, AreSpansIn};

mod alternating;
mod clip;
mod cut_faces;
mod cut_seen;
mod faces;
mod interval;
mod linear;
mod section;
mod seen;
mod view;

use crate::alternating::spans_of;
use crate::clip::clipped;
use crate::cut_faces::{hidden_by_faces, part_beyond};
use crate::cut_seen::CutEdge;
use crate::faces::hidden_intervals;
use crate::section::within_section;
use crate::seen::SeenEdge;
use cut_plane::{Section, crossings};
use exact_frac::{Frac, OutOfMemory};
use intervals::Interval;
use lattice::Dir;
pub use lattice::Span;
use solid_mesh::Solid;
use std::alloc::Global;
pub use view::View;

/// The spans of an edge that is not seen end-on. In a plain view they follow one another from 0 to 1, in a cut view over
/// the part of the edge that is beyond the plane; where there is none there are no spans. Each is hidden or visible, and
/// neighbours differ. No end of a span is at an ordinary point, and at each ordinary point within a span `hidden` is exact.
///
/// Cost: in a plain view at most one interval for each face, three where it is edge-on, each of a few products; in a cut
/// view nine where it is edge-on, and those of the section. Then a sort of the intervals that are there.
pub fn spans_slow(
    alloc: Global,
    solid: &Solid,
    view: &View,
    edge: u32,
) -> Result<Vec<Span>, OutOfMemory>
    requires in_range { edge < length (edge_halves solid.now) }
    requires seen { (e : Edge (solid_part solid.now)) → IsNumbered (edge_halves solid.now) edge e → ¬ IsEndOn (direction_in view.now) e }
    requires section { IsViewOf view.now (solid_part solid.now) }
    ensures { (e : Edge (solid_part solid.now)) → IsNumbered (edge_halves solid.now) edge e →
        IfOk result (λ spans. AreSpansIn view.now e spans.items) }
{
    match view {
        View::Plain(d) => plain_spans(alloc, solid, d, edge),
        View::Section(section) => cut_spans(alloc, solid, section, edge),
    }
}

/// The spans of an edge in the plain view along a direction.
fn plain_spans(alloc: Global, solid: &Solid, d: &Dir, edge: u32) -> Result<Vec<Span>, OutOfMemory>
    requires in_range { edge < length (edge_halves solid.now) }
    requires seen { (e : Edge (solid_part solid.now)) → IsNumbered (edge_halves solid.now) edge e → ¬ IsEndOn (of_dir d.now) e }
    ensures { (e : Edge (solid_part solid.now)) → IsNumbered (edge_halves solid.now) edge e →
        IfOk result (λ spans. AreSpans (of_dir d.now) e spans.items) }
{
    let numbers = solid.edge(edge);
    let seen = SeenEdge::new(d, &solid.corner(numbers.a), &solid.corner(numbers.b));
    let hidden = hidden_intervals(alloc, solid, &seen)?;
    spans_of(alloc, hidden)
}

/// The spans of an edge in a cut view, over its part beyond the plane.
fn cut_spans(
    alloc: Global,
    solid: &Solid,
    section: &Section,
    edge: u32,
) -> Result<Vec<Span>, OutOfMemory>
    requires in_range { edge < length (edge_halves solid.now) }
    requires seen { (e : Edge (solid_part solid.now)) → IsNumbered (edge_halves solid.now) edge e → ¬ IsEndOn (toward_of (plane_of section.now.cut)) e }
    requires borders { AreBorders (plane_of section.now.cut) (solid_part solid.now) section.now.segments.items section.now.loops.items }
    ensures { (e : Edge (solid_part solid.now)) → IsNumbered (edge_halves solid.now) edge e →
        IfOk result (λ spans. AreCutSpans (plane_of section.now.cut) e spans.items) }
{
    let numbers = solid.edge(edge);
    let seen = CutEdge::new(
        &section.cut,
        &solid.corner(numbers.a),
        &solid.corner(numbers.b),
    );
    let Some(part) = part_beyond(&seen) else {
        return Ok(Vec::new(alloc));
    };
    let hidden = hidden_in_cut(alloc, solid, section, edge, &seen)?;
    let spans = spans_of(alloc, hidden)?;
    clipped(alloc, &spans, &part)
}

/// The intervals in which the edge is hidden in a cut view: by what the plane leaves of the faces, or by the section.
fn hidden_in_cut(
    alloc: Global,
    solid: &Solid,
    section: &Section,
    edge: u32,
    seen: &CutEdge,
) -> Result<Vec<Interval<Frac>>, OutOfMemory>
    requires in_range { edge < length (edge_halves solid.now) }
    requires borders { AreBorders (plane_of section.now.cut) (solid_part solid.now) section.now.segments.items section.now.loops.items }
    requires plane { plane_of seen.now.cut ≡ plane_of section.now.cut }
    ensures { (e : Edge (solid_part solid.now)) → IsNumbered (edge_halves solid.now) edge e → e.a ≡ seen.now.seen.a → e.b ≡ seen.now.seen.b →
        IfOk result (λ xs. AreWhereBeyond (plane_of section.now.cut) e (IsHiddenInCut (plane_of section.now.cut) (solid_part solid.now)) xs.items) }
{
    let mut hidden = hidden_by_faces(alloc, solid, seen)?;
    let places = crossings(alloc, solid, section, edge)?;
    let mut within = within_section(alloc, solid, section, edge, places)?;
    hidden.append(&mut within)?;
    Ok(hidden)
}
