// Natural numbers of a few digits.
ghost use Rattle.std.specs.Prelude.{◌≡◌, ◌<◌, ◌≤◌, ◌^◌, length, IfSome};
ghost use Rattle.std.specs.List.{list_all};
ghost use Rattle.std.specs.Char.{is_ascii_digit};
ghost use Rattle.dec_text.specs.Numbers.{AreDigits, digits_value, value_of};

/// The bytes are all digits.
fn are_digits(text: &[u8]) -> bool
    ensures { result ≡ list_all is_ascii_digit text.now }
{
    text.iter().all(|byte| byte.is_ascii_digit())
}

/// What digits stand for.
fn value_of(digits: &[u8]) -> u64
    requires digits { AreDigits digits.now }
    requires few { length digits.now ≤ 13 }
    ensures { result ≡ value_of digits.now }
{
    let mut value = 0;
    for digit in digits {
        value = 10 * value + u64::from(*digit - b'0');
    }
    value
}

/// The number that 1 to `most` digits stand for.
pub fn natural(text: &[u8], most: usize) -> Option<u64>
    requires { most ≤ 13 }
    ensures value { result ≡ digits_value most text.now }
    ensures size { IfSome result (λ n. n < 10 ^ most) }
{
    if text.is_empty() || text.len() > most || !are_digits(text) {
        return None;
    }
    Some(value_of(text))
}
