// From the places at which borders of a section cross an edge to the intervals of the edge in the section.
ghost use Rattle.std.specs.Prelude.{◌≡◌, ◌<◌, ◌↔◌, pos, ◌+ℤ◌, length, IsTrue, IfOk, OnOk, IsPermutation};
ghost use Rattle.std.specs.List.Sorted.{IsSorted};
ghost use Rattle.exact_frac.specs.Frac.{order_of};
ghost use Rattle.lattice.specs.Cuts.{plane_of};
ghost use Rattle.geometry.specs.Parts.{Edge, IsNumbered};
ghost use Rattle.geometry.specs.Cuts.{IsInSection};
ghost use Rattle.solid_mesh.specs.Solids.{solid_part, edge_halves};
ghost use Rattle.cut_plane.specs.Loops.{AreBorders};
ghost use Rattle.cut_plane.specs.Crossings.{IsShort, AreCrossings};
ghost use Rattle.geometry.specs.Places.{IsPlace, IsEarlier};
ghost use Rattle.span_slow.specs.inner.CutHidden.{AreWhereBeyond};
ghost use Rattle.span_slow.specs.inner.Sections.{mediant_point, IsStretchAdded};

use crate::interval::{finish, is_earlier, start};
use cut_plane::{Section, inside};
use exact_frac::{Frac, OutOfMemory};
use intervals::Interval;
use solid_mesh::Solid;
use std::alloc::Global;

/// The intervals of the edge in which its points are in the section: those between neighbouring crossings whose middle, the
/// mediant, is inside. Cost: a sort of the places, and for each a pass over the segments.
pub(crate) fn within_section(
    alloc: Global,
    solid: &Solid,
    section: &Section,
    edge: u32,
    places: Vec<Frac>,
) -> Result<Vec<Interval<Frac>>, OutOfMemory>
    requires in_range { edge < length (edge_halves solid.now) }
    requires borders { AreBorders (plane_of section.now.cut) (solid_part solid.now) section.now.segments.items section.now.loops.items }
    requires crossings { (e : Edge (solid_part solid.now)) → IsNumbered (edge_halves solid.now) edge e → AreCrossings (plane_of section.now.cut) e places.items }
    ensures { (e : Edge (solid_part solid.now)) → IsNumbered (edge_halves solid.now) edge e →
        IfOk result (λ xs. AreWhereBeyond (plane_of section.now.cut) e (IsInSection (plane_of section.now.cut) (solid_part solid.now)) xs.items) }
{
    let places = ascending(places)?;
    let mut within = Vec::new(alloc);
    let mut from = start();
    for place in &places {
        add_stretch(&mut within, solid, section, edge, from, *place)?;
        from = *place;
    }
    add_stretch(&mut within, solid, section, edge, from, finish())?;
    Ok(within)
}

/// The places in order.
fn ascending(mut places: Vec<Frac>) -> Result<Vec<Frac>, OutOfMemory>
    ensures same { IfOk result (λ sorted. IsPermutation places.items sorted.items) }
    ensures sorted { IfOk result (λ sorted. IsSorted order_of sorted.items) }
{
    places.sort()?;
    Ok(places)
}

/// Adds the stretch from one place to the other, if it has an inside and its middle is in the section.
fn add_stretch(
    within: &mut Vec<Interval<Frac>>,
    solid: &Solid,
    section: &Section,
    edge: u32,
    from: Frac,
    to: Frac,
) -> Result<(), OutOfMemory>
    requires in_range { edge < length (edge_halves solid.now) }
    requires borders { AreBorders (plane_of section.now.cut) (solid_part solid.now) section.now.segments.items section.now.loops.items }
    requires from { IsShort from }
    requires to { IsShort to }
    ensures { (e : Edge (solid_part solid.now)) → IsNumbered (edge_halves solid.now) edge e →
        OnOk result (IsStretchAdded e (IsInSection (plane_of section.now.cut) (solid_part solid.now)) from to within.old.items within.new.items) }
{
    if is_in_section(solid, section, edge, from, to) {
        within.push(Interval { from, to })?;
    }
    Ok(())
}

/// The stretch has an inside, and its middle is in the section.
fn is_in_section(solid: &Solid, section: &Section, edge: u32, from: Frac, to: Frac) -> bool
    requires in_range { edge < length (edge_halves solid.now) }
    requires borders { AreBorders (plane_of section.now.cut) (solid_part solid.now) section.now.segments.items section.now.loops.items }
    requires from { IsShort from }
    requires to { IsShort to }
    ensures { (e : Edge (solid_part solid.now)) → IsNumbered (edge_halves solid.now) edge e →
        IsTrue result ↔ (IsEarlier from to × IsInSection (plane_of section.now.cut) (solid_part solid.now) (mediant_point e from to)) }
{
    if !is_earlier(from, to) {
        return false;
    }
    inside(section, &solid.spot(edge, &mediant(from, to)))
}

/// The mediant of two places, which is strictly between them where they differ.
fn mediant(a: Frac, b: Frac) -> Frac
    requires first { IsShort a }
    requires second { IsShort b }
    ensures place { IsPlace result }
    ensures num { result.num ≡ a.num +ℤ b.num }
    ensures den { result.den ≡ a.den +ℤ b.den }
{
    Frac {
        num: a.num + b.num,
        den: a.den + b.den,
    }
}
