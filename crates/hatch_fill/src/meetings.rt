// Where lines meet hatch lines.
ghost use Rattle.std.specs.Prelude.{◌≡◌, ◌≢◌, ◌<◌, ◌≤◌, ◌^◌, pos, ◌+ℤ◌, ◌*ℤ◌, unsigned_abs, IsNone, IfSome};
ghost use Rattle.hatch_fill.specs.inner.Meetings.{IsMeeting, HasMeeting};

use crate::places::HatchPlace;
use exact_frac::Frac;
use lattice::Line;

/// Where the line meets the hatch line with this U - V, if it does at one place and a spot can be there.
pub(crate) fn meeting(line: &Line, diagonal: i64) -> Option<HatchPlace>
    ensures some { IfSome result (IsMeeting line.now diagonal) }
    ensures none { IsNone result → ¬ HasMeeting line.now diagonal }
{
    let slope = slope(line);
    if slope == 0 {
        return None;
    }
    HatchPlace::new(diagonal, &ratio(level(line, diagonal), slope))
}

/// `a + b`, which is 0 where the line runs along hatch lines.
fn slope(line: &Line) -> i128
    ensures value { result ≡ line.now.a +ℤ line.now.b }
    ensures size { unsigned_abs result ≤ 2 ^ 45 }
{
    line.a + line.b
}

/// `c + b * diagonal`: on the hatch line, `a * U + b * V = c` is `(a + b) * U = c + b * diagonal`.
fn level(line: &Line, diagonal: i64) -> i128
    ensures value { result ≡ line.now.c +ℤ (line.now.b *ℤ diagonal) }
    ensures size { unsigned_abs result ≤ 2 ^ 108 }
{
    line.c + line.b * i128::from(diagonal)
}

/// `n / m`, with a positive divisor.
fn ratio(n: i128, m: i128) -> Frac
    requires some { m ≢ pos 0 }
    requires first { unsigned_abs n ≤ 2 ^ 108 }
    requires second { unsigned_abs m ≤ 2 ^ 45 }
    ensures value { m *ℤ result.num ≡ n *ℤ result.den }
    ensures short { unsigned_abs result.den ≤ 2 ^ 45 }
{
    if m < 0 {
        Frac { num: -n, den: -m }
    } else {
        Frac { num: n, den: m }
    }
}
