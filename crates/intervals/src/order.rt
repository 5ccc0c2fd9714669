// Which of two values comes first.
ghost use Rattle.std.specs.Prelude.{◌≡◌, ◌⊎◌, ◌↔◌, IsTrue};
ghost use Rattle.std.specs.declared.cmp.Ordering.TheVariants.{Less};
ghost use Rattle.intervals.specs.Cuts.{IsNotAfter};

pub(crate) fn is_before<T: Ord + Copy>(a: T, b: T) -> bool
    ensures { IsTrue result ↔ (T.cmp a b ≡ Less) }
{
    a.cmp(&b).is_lt()
}

/// The first of the two.
pub(crate) fn earlier<T: Ord + Copy>(a: T, b: T) -> T
    ensures one { (result ≡ a) ⊎ (result ≡ b) }
    ensures first { IsNotAfter T.cmp result a }
    ensures second { IsNotAfter T.cmp result b }
{
    if is_before(b, a) { b } else { a }
}

/// The last of the two.
pub(crate) fn later<T: Ord + Copy>(a: T, b: T) -> T
    ensures one { (result ≡ a) ⊎ (result ≡ b) }
    ensures first { IsNotAfter T.cmp a result }
    ensures second { IsNotAfter T.cmp b result }
{
    if is_before(a, b) { b } else { a }
}
