// The table of joints: for each end of a stroke the end that a path goes on from.
ghost use Rattle.std.specs.Prelude.{◌≡◌, ◌<◌, IfOk, length};
ghost use Rattle.stroke_paths.specs.inner.Corners.{AreCorners};
ghost use Rattle.stroke_paths.specs.inner.Pairs.{ArePairs};
ghost use Rattle.stroke_paths.specs.inner.Tables.{AreJoints, IsJoint};

use crate::corners::{StrokePlace, corners, may_join, place_of};
use crate::pairs::{Pair, least_pair, other_end};
use crate::path::{End, Tip};
use exact_frac::OutOfMemory;
use indexmap::IndexMap;
use sheet_plan::Stroke;
use std::alloc::Global;

/// The ends that a path goes on from at the first and at the second end of a stroke.
#[derive(Clone, Copy)]
pub(crate) struct Joint {
    pub first: Option<End>,
    pub second: Option<End>,
}

/// The joints of all strokes. Each end of a stroke that may be joined is hashed once more.
pub(crate) fn joints(alloc: Global, strokes: &[Stroke]) -> Result<Vec<Joint>, OutOfMemory>
    ensures { IfOk result (λ joints. AreJoints strokes.now joints.items) }
{
    let corners = corners(alloc, strokes)?;
    let pairs = pairs(alloc, strokes, &corners)?;
    let mut joints = Vec::new(alloc);
    for i in 0..strokes.len() {
        let first = End {
            stroke: i,
            tip: Tip::First,
        };
        let second = End {
            stroke: i,
            tip: Tip::Second,
        };
        joints.push(Joint {
            first: find_partner(strokes, &corners, &pairs, first),
            second: find_partner(strokes, &corners, &pairs, second),
        })?;
    }
    Ok(joints)
}

/// Of each corner the two ends between which a path goes on, in the order of the corners.
fn pairs(
    alloc: Global,
    strokes: &[Stroke],
    corners: &IndexMap<StrokePlace, Vec<End>>,
) -> Result<Vec<Option<Pair>>, OutOfMemory>
    ensures { IfOk result (λ pairs. ArePairs strokes.now corners.now pairs.items) }
{
    let mut pairs = Vec::new(alloc);
    for i in 0..corners.len() {
        pairs.push(least_pair(strokes, &corners[i]))?;
    }
    Ok(pairs)
}

/// The end that a path goes on from, once it has come to this end.
fn find_partner(
    strokes: &[Stroke],
    corners: &IndexMap<StrokePlace, Vec<End>>,
    pairs: &[Option<Pair>],
    end: End,
) -> Option<End>
    requires listed { end.stroke < length strokes.now }
    requires corners { AreCorners strokes.now (length strokes.now) corners.now }
    requires pairs { ArePairs strokes.now corners.now pairs.now }
    ensures { IsJoint strokes.now end result }
{
    let stroke = strokes[end.stroke];
    if !may_join(&stroke) {
        return None;
    }
    let corner = corners.get_index_of(&place_of(&stroke, end.tip))?;
    other_end(pairs[corner]?, end)
}
