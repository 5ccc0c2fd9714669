// Places on hatch lines, and their order.
ghost use Rattle.std.specs.Prelude.{◌≡◌, ◌+◌, ◌*◌, ◌<◌, ◌≤◌, ◌^◌, ◌↔◌, ◌-ℤ◌, ◌*ℤ◌, unsigned_abs, IsTrue, IsNone, IfSome};

use exact_frac::Frac;

/// A place on a hatch line: U - V is `diagonal`, and U is `across`. A spot can be there: neither U nor V is above 2^21 in
/// size, and the divisor is below 2^69. Places are in the order of their lines, and on one line of U.
#[derive(Clone, Copy, PartialEq, Eq, PartialOrd, Ord)]
pub(crate) struct HatchPlace {
    pub diagonal: i64,
    pub across: Frac,
    ghost short: { unsigned_abs across.den < 2 ^ 69 },
    ghost across_near: { unsigned_abs across.num ≤ 2 ^ 21 * unsigned_abs across.den },
    ghost upward_near: { unsigned_abs (across.num -ℤ (diagonal *ℤ across.den)) ≤ 2 ^ 21 * unsigned_abs across.den },
}

impl HatchPlace {
    ghost use Rattle.hatch_fill.specs.inner.Places.{IsPlaceAt, HasSpot};

    /// The place with this U - V and this U, if a spot can be there.
    pub(crate) fn new(diagonal: i64, across: &Frac) -> Option<HatchPlace>
        ensures some { IfSome result (IsPlaceAt diagonal across.now) }
        ensures none { IsNone result → ¬ HasSpot diagonal across.now.num across.now.den }
    {
        if across.den >= 1 << 69 || !is_near(across.num, across.den) {
            return None;
        }
        if diagonal.unsigned_abs() > 1 << 22 {
            return None;
        }
        if !is_near(upward(diagonal, across), across.den) {
            return None;
        }
        Some(HatchPlace {
            diagonal,
            across: *across,
        })
    }

    /// V of the place, with U's divisor.
    pub(crate) fn upward(&self) -> i128
        ensures value { result ≡ self.now.across.num -ℤ (self.now.diagonal *ℤ self.now.across.den) }
        ensures near { unsigned_abs result ≤ 2 ^ 21 * unsigned_abs self.now.across.den }
    {
        upward(self.diagonal, &self.across)
    }
}

/// `n / m` is at most 2^21 in size.
fn is_near(n: i128, m: i128) -> bool
    requires { unsigned_abs m < 2 ^ 69 }
    ensures { IsTrue result ↔ (unsigned_abs n ≤ 2 ^ 21 * unsigned_abs m) }
{
    n.unsigned_abs() <= 2_097_152 * m.unsigned_abs()
}

/// V of a place with this U - V and this U, with U's divisor.
fn upward(diagonal: i64, across: &Frac) -> i128
    requires first { unsigned_abs diagonal ≤ 2 ^ 22 }
    requires second { unsigned_abs across.now.num ≤ 2 ^ 90 }
    requires third { unsigned_abs across.now.den < 2 ^ 69 }
    ensures { result ≡ across.now.num -ℤ (diagonal *ℤ across.now.den) }
{
    across.num - i128::from(diagonal) * across.den
}
