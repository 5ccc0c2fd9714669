// Natural numbers of a few digits, up to a greatest one.
ghost use Rattle.std.specs.Prelude.{◌≡◌, ◌≤◌, IfSome};
ghost use Rattle.dec_text.specs.Numbers.{digits_value};
ghost use Rattle.mend_words.specs.Names.{up_to};

use dec_text::natural;

/// The number that 1 to `most` digits stand for, where it is at most `greatest`.
pub(crate) fn number(text: &[u8], most: usize, greatest: u32) -> Option<u32>
    requires { most ≤ 8 }
    ensures value { result ≡ up_to greatest (digits_value most text.now) }
    ensures size { IfSome result (λ n. n ≤ greatest) }
{
    match natural(text, most) {
        Some(value) if value <= u64::from(greatest) => Some(value as u32),
        _ => None,
    }
}
