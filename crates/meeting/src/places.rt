// Whether an edge has a place in a triangle.
ghost use Rattle.std.specs.Prelude.{◌≡◌, ◌↔◌, pos, IsTrue};
ghost use Rattle.meeting.specs.inner.Places.{CoursePlace, HasBothSides, IsLeftInPlane, IsLeftSomewhere, IsInOrder, Agree};

use crate::course::{Course, Heights, Offset};

/// Whether the edge has a place in the plane that is to the right of no side.
pub(crate) fn crosses(x: &Course) -> bool
    ensures { IsTrue result ↔ CoursePlace x.now }
{
    if x.above.start < 0 {
        if x.above.end < 0 {
            return false;
        }
        return goes_through(x);
    }
    if x.above.start > 0 {
        if x.above.end > 0 {
            return false;
        }
        return goes_through(x);
    }
    if x.above.end == 0 {
        return stays(x);
    }
    goes_through(x)
}

/// The same, of an edge that goes through the plane, or has one end in it.
fn goes_through(x: &Course) -> bool
    requires { HasBothSides x.now.above }
    ensures { IsTrue result ↔ CoursePlace x.now }
{
    is_left(&x.above, &x.bc) && is_left(&x.above, &x.ca) && is_left(&x.above, &x.ab)
}

/// The same, of an edge in the plane.
fn stays(x: &Course) -> bool
    requires start { x.now.above.start ≡ pos 0 }
    requires end { x.now.above.end ≡ pos 0 }
    ensures { IsTrue result ↔ CoursePlace x.now }
{
    agree(&x.bc, &x.ca) && agree(&x.ca, &x.ab) && agree(&x.ab, &x.bc)
}

/// Where the edge goes through the plane, it is not to the right of the side.
fn is_left(above: &Heights, side: &Offset) -> bool
    requires { HasBothSides above.now }
    ensures { IsTrue result ↔ IsLeftInPlane above.now side.now }
{
    let of_start = above.end * side.start;
    let of_end = above.start * side.end;
    if above.start < above.end {
        return of_end <= of_start;
    }
    of_start <= of_end
}

/// Whether there is a place where the edge is to the right of neither side.
fn agree(x: &Offset, y: &Offset) -> bool
    ensures { IsTrue result ↔ Agree x.now y.now }
{
    is_left_somewhere(x) && is_in_order(x, y) && is_in_order(y, x)
}

/// Whether the edge, where it begins to the right of the side, ends to the left of it or on it.
fn is_left_somewhere(x: &Offset) -> bool
    ensures { IsTrue result ↔ IsLeftSomewhere x.now }
{
    if x.start >= 0 {
        return true;
    }
    x.end >= 0
}

/// Whether the edge, where it comes from the right of side `x` and goes to the right of side `y`, doesn't go there first.
fn is_in_order(x: &Offset, y: &Offset) -> bool
    ensures { IsTrue result ↔ IsInOrder x.now y.now }
{
    if x.start >= 0 {
        return true;
    }
    if y.end >= 0 {
        return true;
    }
    x.start * y.end <= x.end * y.start
}
