// Exact sums and products, and how large they are.
ghost use Rattle.std.specs.Prelude.{◌≡◌, ◌≤◌, ◌^◌, pos, ◌+ℤ◌, ◌-ℤ◌, ◌*ℤ◌, unsigned_abs};
ghost use Rattle.std.specs.Int.Signed.{lt_z};
ghost use Rattle.covered_paths.specs.Numbers.{at_most};

/// `a - b`.
pub(crate) fn difference(a: i64, b: i64) -> i64
    requires first { unsigned_abs a ≤ 2 ^ 17 }
    requires second { unsigned_abs b ≤ 2 ^ 17 }
    ensures value { result ≡ a -ℤ b }
    ensures size { unsigned_abs result ≤ 2 ^ 18 }
{
    a - b
}

/// `a * c + b * d`, of ways: the size of one along the other.
pub(crate) fn dot(a: i64, b: i64, c: i64, d: i64) -> i64
    requires first { unsigned_abs a ≤ 2 ^ 18 }
    requires second { unsigned_abs b ≤ 2 ^ 18 }
    requires third { unsigned_abs c ≤ 2 ^ 18 }
    requires fourth { unsigned_abs d ≤ 2 ^ 18 }
    ensures value { result ≡ (a *ℤ c) +ℤ (b *ℤ d) }
    ensures size { unsigned_abs result ≤ 2 ^ 37 }
{
    a * c + b * d
}

/// `whole * from + part * along`: how far a place is from a point, times its whole.
pub(crate) fn gap(whole: i64, from: i64, part: i64, along: i64) -> i64
    requires first { unsigned_abs whole ≤ 2 ^ 37 }
    requires second { unsigned_abs from ≤ 2 ^ 18 }
    requires third { unsigned_abs part ≤ 2 ^ 37 }
    requires fourth { unsigned_abs along ≤ 2 ^ 18 }
    ensures value { result ≡ (whole *ℤ from) +ℤ (part *ℤ along) }
    ensures size { unsigned_abs result ≤ 2 ^ 56 }
{
    whole * from + part * along
}

/// `a * c + b * d`, of gaps.
pub(crate) fn wide_dot(a: i64, b: i64, c: i64, d: i64) -> i128
    requires first { unsigned_abs a ≤ 2 ^ 56 }
    requires second { unsigned_abs b ≤ 2 ^ 56 }
    requires third { unsigned_abs c ≤ 2 ^ 56 }
    requires fourth { unsigned_abs d ≤ 2 ^ 56 }
    ensures { result ≡ (a *ℤ c) +ℤ (b *ℤ d) }
{
    i128::from(a) * i128::from(c) + i128::from(b) * i128::from(d)
}

/// `a * d - b * c`, of a gap and a way.
pub(crate) fn wide_cross(a: i64, b: i64, c: i64, d: i64) -> i128
    requires first { unsigned_abs a ≤ 2 ^ 56 }
    requires second { unsigned_abs b ≤ 2 ^ 56 }
    requires third { unsigned_abs c ≤ 2 ^ 56 }
    requires fourth { unsigned_abs d ≤ 2 ^ 56 }
    ensures { result ≡ (a *ℤ d) -ℤ (b *ℤ c) }
{
    i128::from(a) * i128::from(d) - i128::from(b) * i128::from(c)
}

/// `a * b`.
pub(crate) fn wide_product(a: i64, b: i64) -> i128
    requires first { unsigned_abs a ≤ 2 ^ 43 }
    requires second { unsigned_abs b ≤ 2 ^ 43 }
    ensures value { result ≡ a *ℤ b }
    ensures size { unsigned_abs result ≤ 2 ^ 86 }
{
    i128::from(a) * i128::from(b)
}

/// `far * whole`: a distance, times a place's whole.
pub(crate) fn reach(far: i64, whole: i64) -> i64
    requires first { unsigned_abs far ≤ 2 ^ 6 }
    requires second { unsigned_abs whole ≤ 2 ^ 37 }
    ensures value { result ≡ far *ℤ whole }
    ensures size { unsigned_abs result ≤ 2 ^ 43 }
{
    far * whole
}

/// `most * long`.
pub(crate) fn widest(most: i128, long: i64) -> i128
    requires first { unsigned_abs most ≤ 2 ^ 86 }
    requires second { unsigned_abs long ≤ 2 ^ 37 }
    ensures value { result ≡ most *ℤ long }
    ensures size { unsigned_abs result ≤ 2 ^ 123 }
{
    most * i128::from(long)
}

/// The one number is less than the other.
pub(crate) fn is_less(a: i64, b: i64) -> bool
    ensures { result ≡ lt_z a b }
{
    a < b
}

/// The one number is less than the other.
pub(crate) fn is_wide_less(a: i128, b: i128) -> bool
    ensures { result ≡ lt_z a b }
{
    a < b
}

/// The one number is at most the other.
pub(crate) fn is_at_most(a: i128, b: i128) -> bool
    ensures { result ≡ at_most a b }
{
    !(b < a)
}

/// The square of a number is at most a bound.
pub(crate) fn is_square_at_most(a: i128, bound: i128) -> bool
    requires { unsigned_abs bound ≤ 2 ^ 123 }
    ensures { result ≡ at_most (a *ℤ a) bound }
{
    if a.unsigned_abs() >= 1 << 62 {
        return false;
    }
    is_at_most(square(a), bound)
}

/// `a * a`.
fn square(a: i128) -> i128
    requires { unsigned_abs a ≤ 2 ^ 62 }
    ensures { result ≡ a *ℤ a }
{
    a * a
}

/// `a * b`, whatever they are.
pub(crate) fn any_product(a: i64, b: i64) -> i128
    ensures { result ≡ a *ℤ b }
{
    i128::from(a) * i128::from(b)
}

/// `0 - a`.
pub(crate) fn negative(a: i64) -> i64
    requires { unsigned_abs a ≤ 2 ^ 37 }
    ensures { result ≡ pos 0 -ℤ a }
{
    0 - a
}

/// `a + far`.
pub(crate) fn beyond(a: i64, far: i64) -> i64
    requires first { unsigned_abs a ≤ 2 ^ 17 }
    requires second { unsigned_abs far ≤ 2 ^ 6 }
    ensures { result ≡ a +ℤ far }
{
    a + far
}

/// `a - far`.
pub(crate) fn before(a: i64, far: i64) -> i64
    requires first { unsigned_abs a ≤ 2 ^ 17 }
    requires second { unsigned_abs far ≤ 2 ^ 6 }
    ensures { result ≡ a -ℤ far }
{
    a - far
}
