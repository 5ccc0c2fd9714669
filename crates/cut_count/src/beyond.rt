// The part of an edge that is beyond the plane of a cut, by the heights of its corners.
ghost use Rattle.std.specs.Prelude.{◌≡◌, ◌+◌, ◌<◌, ◌^◌, pos, unsigned_abs, option_to_list};
ghost use Rattle.lattice.specs.Cuts.{plane_of};
ghost use Rattle.geometry.specs.Parts.{Part, Edge};
ghost use Rattle.geometry.specs.Places.{IsPlace};
ghost use Rattle.cut_plane.specs.Beyond.{IsPartBeyond};

use cut_plane::over;
use exact_frac::Frac;
use intervals::Interval;
use lattice::{Corner, Cut};

/// The part beyond the plane of the edge from one corner to the other, if there is one: up to the plane, or from there on, where the
/// corners are on both sides of it. Takes constant time.
pub(crate) fn part_beyond(cut: &Cut, a: &Corner, b: &Corner) -> Option<Interval<Frac>>
    ensures { (s : Part) → (e : Edge s) → e.a ≡ a.now → e.b ≡ b.now → IsPartBeyond (plane_of cut.now) e (option_to_list result) }
{
    let (from, to) = (over(cut, a), over(cut, b));
    if from < 0 {
        if to < 0 {
            Some(Interval {
                from: start(),
                to: finish(),
            })
        } else {
            Some(Interval {
                from: start(),
                to: meeting(from, to),
            })
        }
    } else if to < 0 {
        Some(Interval {
            from: meeting(from, to),
            to: finish(),
        })
    } else {
        None
    }
}

/// The first corner of the edge.
fn start() -> Frac
    ensures place { IsPlace result }
    ensures num { result.num ≡ pos 0 }
    ensures den { result.den ≡ pos 1 }
{
    Frac { num: 0, den: 1 }
}

/// The second corner of the edge.
fn finish() -> Frac
    ensures place { IsPlace result }
    ensures num { result.num ≡ pos 1 }
    ensures den { result.den ≡ pos 1 }
{
    Frac { num: 1, den: 1 }
}

/// Where the edge meets the plane, by the heights of its corners on both sides of it: as far along as the first corner's share of both.
fn meeting(from: i64, to: i64) -> Frac
    requires first { unsigned_abs from < 2 ^ 23 }
    requires second { unsigned_abs to < 2 ^ 23 }
    requires apart { 0 < unsigned_abs from + unsigned_abs to }
    ensures place { IsPlace result }
    ensures num { result.num ≡ pos (unsigned_abs from) }
    ensures den { result.den ≡ pos (unsigned_abs from + unsigned_abs to) }
{
    let (near, far) = (from.unsigned_abs(), to.unsigned_abs());
    Frac {
        num: near.into(),
        den: (near + far).into(),
    }
}
