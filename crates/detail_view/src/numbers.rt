// Whole numbers of a few digits, with a sign.
ghost use Rattle.std.specs.Prelude.{◌≡◌, ◌<◌, ◌^◌, unsigned_abs, IfSome, option_map};
ghost use Rattle.detail_view.specs.Words.{whole_value};

use dec_text::natural;

/// The whole number that a sign, or none, and 1 to 13 digits stand for.
pub(crate) fn whole(text: &[u8]) -> Option<i64>
    ensures value { result ≡ whole_value text.now }
    ensures size { IfSome result (λ z. unsigned_abs z < 10 ^ 13) }
{
    match text {
        [b'-', digits @ ..] => Some(-(natural(digits, 13)? as i64)),
        _ => Some(natural(text, 13)? as i64),
    }
}
