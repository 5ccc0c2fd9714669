// Places along an edge, and across a view.
ghost use Rattle.std.specs.Prelude.{◌<◌};

use exact_frac::Frac;

// So many of the equal parts of which one is whole.
pub(crate) fn share(n: i32, of: u16) -> Frac
    requires { 0 < of }
{
    Frac {
        num: n.into(),
        den: of.into(),
    }
}
