// Where what the plane leaves of an outline passes nearer over an edge, and what it changes there of the counts along the edge.
ghost use Rattle.std.specs.Prelude.{◌≡◌, ◌≤◌, ◌+◌, ◌<◌, ◌^◌, ◌-ℤ◌, ◌*ℤ◌, length, unsigned_abs};
ghost use Rattle.lattice.specs.Cuts.{plane_of, toward_of};
ghost use Rattle.geometry.specs.Cuts.{over_of};
ghost use Rattle.geometry.specs.Parts.{Edge, IsNumbered};
ghost use Rattle.geometry.specs.Views.{face_sign};
ghost use Rattle.solid_mesh.specs.Solids.{solid_part, edge_halves};
ghost use Rattle.geometry.specs.Counts.{orientation_of};
ghost use Rattle.cut_plane.specs.Loops.{AreBorders};
ghost use Rattle.cut_count.specs.Crossings.{IsCutAcross};

use crate::placed::Placed;
use crate::rests::{end_turn, is_beyond_at};
use cross_find::{CountChanges, Crossing, Meter, count_changes, ends, passing, sides_of, turn_of};
use cut_plane::{Section, over};
use solid_mesh::Solid;

/// Where what the plane leaves of an outline passes nearer over an inner place of an edge that is beyond the plane, and what it changes of
/// the two counts there; none where it changes neither. An end of the outline that isn't beyond the plane is replaced by the place at
/// which the outline meets the plane; an outline with no end beyond it changes nothing. Takes constant time and no memory: at most two
/// determinants where what is left of the outline is to one side of the edge's line, at most two more else.
pub fn cut_cross(
    solid: &Solid,
    section: &Section,
    edge: u32,
    outline: u32,
    meter: &mut Meter,
) -> Option<Crossing>
    requires edge_in_range { edge < length (edge_halves solid.now) }
    requires outline_in_range { outline < length (edge_halves solid.now) }
    requires room { meter.old.tests + 1 < 2 ^ 64 }
    ensures answer { (e o : Edge (solid_part solid.now)) → IsNumbered (edge_halves solid.now) edge e → IsNumbered (edge_halves solid.now) outline o →
        IsCutAcross (plane_of section.now.cut) e o result }
    ensures counted { meter.new.tests ≡ meter.old.tests + 1 }
{
    meter.tests += 1;
    let cut = &section.cut;
    let (p, q) = ends(solid, outline);
    let (p_over, q_over) = (over(cut, &p), over(cut, &q));
    if p_over > 0 && q_over > 0 {
        return None;
    }
    let d = cut.dir();
    let (a, b) = ends(solid, edge);
    let sides = sides_of(&d, &a, &b, &p, &q);
    let from = Placed {
        over: p_over,
        turn: sides.from,
    };
    let to = Placed {
        over: q_over,
        turn: sides.to,
    };
    let CountChanges { left, right } = count_changes(
        turn_of(solid, &d, outline),
        end_turn(&from, &to),
        end_turn(&to, &from),
    );
    if left == 0 && right == 0 {
        return None;
    }
    let at = passing(&d, &a, &b, &p, &q, &sides)?;
    if !is_beyond_at(cut, &a, &b, &at) {
        return None;
    }
    Some(Crossing { at, left, right })
}
