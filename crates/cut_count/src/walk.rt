// Along an edge in the view of a cut, from an end of it that is beyond the plane.
ghost use Rattle.std.specs.Prelude.{◌≡◌, ◌≢◌, ◌≤◌, ◌+◌, ◌<◌, ◌^◌, ℕ, ℤ, pos, ◌+ℤ◌, cond, length, IfOk, OnOk, IsPermutation};
ghost use Rattle.std.specs.List.Sorted.{IsSortedByKey};
ghost use Rattle.exact_frac.specs.Frac.{order_of};
ghost use Rattle.lattice.specs.Cuts.{plane_of, toward_of};
ghost use Rattle.geometry.specs.Parts.{Edge, IsNumbered};
ghost use Rattle.geometry.specs.Views.{IsEndOn};
ghost use Rattle.solid_mesh.specs.Solids.{solid_part, edge_halves};
ghost use Rattle.cut_plane.specs.Loops.{AreBorders};
ghost use Rattle.cut_count.specs.CutSpans.{AreCutCountSpans};
ghost use Rattle.cut_count.specs.Tests.{IsEdgeTests};
ghost use Rattle.cut_plane.proofs.Xors.{xor};
ghost use Rattle.span_count.specs.Finders.{AreAllNear};
ghost use Rattle.cut_count.specs.inner.Walks.{AreListedInCut, AreSectionCrossings, odd_turns, turn_left, turn_right, section_change};

use crate::beyond::part_beyond;
use crate::found::{CrossingBorder, Odds, Share};
use crate::outlines::add_outlines;
use crate::sights::SeenEdge;
use crate::start::{Borders, borders_along, cover_counts};
use cross_find::{Crossing, End, Meter};
use cut_plane::{Section, over};
use exact_frac::OutOfMemory;
use solid_mesh::Solid;
use span_count::{CountSpan, Finder, Sides, ascending, carried, change_over, first_counts_by};
use std::alloc::Global;

/// The spans of an edge over its part beyond the plane: a test of each segment, of each triangle that the finder doesn't pass over at the
/// corner that is come from, and of each outline that it lists along the edge. The borders are found once and sorted, so that the section's changes take one pass over those that are there.
pub(crate) fn edge_spans<F: Finder>(
    alloc: Global,
    solid: &Solid,
    section: &Section,
    finder: &F,
    edge: u32,
    meter: &mut Meter,
) -> Result<Vec<CountSpan>, OutOfMemory>
    requires in_range { edge < length (edge_halves solid.now) }
    requires seen { (e : Edge (solid_part solid.now)) → IsNumbered (edge_halves solid.now) edge e → ¬ IsEndOn (toward_of (plane_of section.now.cut)) e }
    requires borders { AreBorders (plane_of section.now.cut) (solid_part solid.now) section.now.segments.items section.now.loops.items }
    requires near { AreAllNear (toward_of (plane_of section.now.cut)) (solid_part solid.now) (F.is_near finder.now) }
    requires listed { AreListedInCut (plane_of section.now.cut) (solid_part solid.now) (edge_halves solid.now) edge (F.list_along finder.now edge) }
    requires room { meter.old.tests + (length (solid_part solid.now).triangles + length (F.list_along finder.now edge) + length section.now.segments.items) < 2 ^ 64 }
    ensures spans { (e : Edge (solid_part solid.now)) → IsNumbered (edge_halves solid.now) edge e →
        IfOk result (λ spans. AreCutCountSpans (plane_of section.now.cut) e spans.items) }
    ensures tested { (meter.old.tests ≤ meter.new.tests)
        × (meter.new.tests ≤ meter.old.tests + (length (solid_part solid.now).triangles + length (F.list_along finder.now edge) + length section.now.segments.items)) }
    ensures all_tested { OnOk result ((n : ℕ) × IsEdgeTests (plane_of section.now.cut) (solid_part solid.now) (edge_halves solid.now) (F.list_along finder.now) (length section.now.segments.items) (F.is_near finder.now) edge n
        × (meter.new.tests ≡ meter.old.tests + n)) }
{
    let seen = SeenEdge::new(solid, &section.cut, edge);
    let Some(part) = part_beyond(&section.cut, &seen.at.a, &seen.at.b) else {
        return Ok(Vec::new(alloc));
    };
    let at_b = over(&section.cut, &seen.at.a) > 0;
    let Borders { found, odd } = borders_along(alloc, solid, section, &seen, at_b, &part, meter)?;
    let found = in_order(found)?;
    let mut crossings = with_section(alloc, &found, first_odds(at_b, odd, &found))?;
    add_outlines(&mut crossings, solid, section, finder, edge, meter)?;
    let crossings = ascending(crossings)?;
    let near = cover_counts(solid, section, finder, End { edge, at_b }, meter).plus(ones(odd));
    let first = first_counts_by(at_b, near, change_over(&crossings));
    carried(alloc, &crossings, part.from, part.to, first)
}

/// The borders in the order of their places.
fn in_order(mut found: Vec<CrossingBorder>) -> Result<Vec<CrossingBorder>, OutOfMemory>
    ensures same { IfOk result (λ sorted. IsPermutation found.items sorted.items) }
    ensures sorted { IfOk result (λ sorted. IsSortedByKey (λ x. x.at) order_of sorted.items) }
{
    found.sort_by_key(|x| x.at)?;
    Ok(found)
}

/// 1 for each side on which it is so.
fn ones(x: Odds) -> Sides
    ensures left { result.left ≡ cond x.left (pos 1) (pos 0) }
    ensures right { result.right ≡ cond x.right (pos 1) (pos 0) }
{
    Sides {
        left: i64::from(x.left),
        right: i64::from(x.right),
    }
}

/// Whether the section is there before the first border that was found, by whether it is next to the end that is come from.
fn first_odds(at_b: bool, odd: Odds, found: &[CrossingBorder]) -> Odds
    ensures left { result.left ≡ cond at_b (xor odd.left (odd_turns turn_left found.now)) odd.left }
    ensures right { result.right ≡ cond at_b (xor odd.right (odd_turns turn_right found.now)) odd.right }
{
    if at_b { past_all(odd, found) } else { odd }
}

/// Whether the section is there behind all borders.
fn past_all(before: Odds, found: &[CrossingBorder]) -> Odds
    ensures left { result.left ≡ xor before.left (odd_turns turn_left found.now) }
    ensures right { result.right ≡ xor before.right (odd_turns turn_right found.now) }
{
    let mut there = before;
    for border in found {
        there = past(there, border);
    }
    there
}

/// Whether the section is there behind the border.
fn past(before: Odds, border: &CrossingBorder) -> Odds
    ensures left { result.left ≡ xor before.left border.now.left.turns }
    ensures right { result.right ≡ xor before.right border.now.right.turns }
{
    Odds {
        left: before.left != border.left.turns,
        right: before.right != border.right.turns,
    }
}

/// The borders as crossings: each changes the counts by its own share, and the section begins and ends in turn.
fn with_section(
    alloc: Global,
    found: &[CrossingBorder],
    before: Odds,
) -> Result<Vec<Crossing>, OutOfMemory>
    ensures crossings { IfOk result (λ crossings. AreSectionCrossings before.left before.right found.now crossings.items) }
    ensures few { IfOk result (λ crossings. length crossings.items ≡ length found.now) }
{
    let mut crossings = Vec::new(alloc);
    let mut there = before;
    for border in found {
        crossings.push(Crossing {
            at: border.at,
            left: change(border.left, there.left),
            right: change(border.right, there.right),
        })?;
        there = past(there, border);
    }
    Ok(crossings)
}

/// What a border changes of a count: its own share, and 1 where the section begins there, or -1 where it ends.
fn change(share: Share, there: bool) -> i8
    ensures { result ≡ share.own +ℤ section_change there share.turns }
{
    if !share.turns {
        share.own
    } else if there {
        share.own - 1
    } else {
        share.own + 1
    }
}
