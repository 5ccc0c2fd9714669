// What is measured of triangles once: their least heights.
ghost use Rattle.std.specs.Prelude.{◌↔◌, length, IsTrue, IfOk};
ghost use Rattle.std.specs.List.{All};
ghost use Rattle.lattice.specs.Triangles.{IsBelow};
ghost use Rattle.flip_slivers.specs.Flips.{IsRise};
ghost use Rattle.flip_slivers.specs.inner.Measures.{IsMeasure, AreMeasures};

use crate::heights::{Height, height_at, is_below_both, is_less, is_sliver, rise_of};
use lattice::{Corner, Tri};
use std::alloc::{AllocError, Global};

/// What is measured of a triangle: its least height, and that in 1024ths of a unit, rounded up, if the triangle is a sliver.
#[derive(Clone, Copy, Debug)]
pub(crate) struct Measure {
    pub height: Height,
    pub rise: u32,
}

/// Measures the triangle with these corner numbers.
pub(crate) fn measure_of(corners: &[Corner], t: &Tri) -> Measure
    requires { IsBelow (length corners.now) t.now }
    ensures { IsMeasure corners.now t.now result }
{
    let height = height_at(corners, t);
    let rise = if is_sliver(&height) {
        rise_of(&height)
    } else {
        0
    };
    Measure { height, rise }
}

/// Measures all triangles.
pub(crate) fn measure_all(
    alloc: Global,
    corners: &[Corner],
    triangles: &[Tri],
) -> Result<Vec<Measure>, AllocError>
    requires { All (IsBelow (length corners.now)) triangles.now }
    ensures { IfOk result (λ measures. AreMeasures corners.now triangles.now measures.items) }
{
    let mut measures = Vec::new(alloc);
    for t in triangles {
        measures.push(measure_of(corners, t))?;
    }
    Ok(measures)
}

/// The lesser height of the triangles at two places is less than those of u and v.
pub(crate) fn rises(corners: &[Corner], first: &Measure, second: &Measure, u: &Tri, v: &Tri) -> bool
    requires one { IsBelow (length corners.now) u.now }
    requires other { IsBelow (length corners.now) v.now }
    ensures { (s t : Tri) → IsMeasure corners.now s first.now → IsMeasure corners.now t second.now →
        (IsTrue result ↔ IsRise corners.now s t u.now v.now) }
{
    let here = height_at(corners, u);
    let one = is_less(&first.height, &here);
    let other = is_less(&second.height, &here);
    if !one && !other {
        return false;
    }
    let there = height_at(corners, v);
    if is_below_both(&first.height, &here, &there) {
        return true;
    }
    is_below_both(&second.height, &here, &there)
}
