// Whole numbers, as they are written.
ghost use Rattle.std.specs.Prelude.{◌≡◌, ◌∷◌, ◌<◌, ◌^◌, unsigned_abs, IfSome};
ghost use Rattle.std.specs.Fmt.{decimal, signed_decimal};
ghost use Rattle.piece_verify.specs.Columns.{Reads};
ghost use Rattle.piece_verify.specs.inner.Digits.{with_digit, read_on};

/// From here on a number is too large.
const END: u128 = 1 << 104;

/// The number with one more digit, where it stays below the end.
fn with_digit(value: u128, byte: u8) -> Option<u128>
    requires { value < 2 ^ 104 }
    ensures value { result ≡ with_digit byte value }
    ensures size { IfSome result (λ next. next < 2 ^ 104) }
{
    if !byte.is_ascii_digit() {
        return None;
    }
    let next = 10 * value + u128::from(byte - b'0');
    if next < END { Some(next) } else { None }
}

/// What digits stand for, where it is below the end.
fn read_digits(bytes: &[u8]) -> Option<u128>
    ensures { result ≡ read_on bytes.now 0 }
{
    let mut value = 0;
    for byte in bytes {
        match with_digit(value, *byte) {
            Some(next) => value = next,
            None => return None,
        }
    }
    Some(value)
}

/// The number below 2^104 that is written so.
pub(crate) fn natural(bytes: &[u8]) -> Option<u128>
    ensures { Reads (λ n. n < 2 ^ 104) decimal bytes.now result }
{
    match bytes {
        [] => None,
        [b'0', more @ ..] => { if more.is_empty() { Some(0) } else { None } }
        _ => read_digits(bytes),
    }
}

/// The number below 0 of this size, where it has one.
fn negative(size: u128) -> Option<i128>
    requires { size < 2 ^ 104 }
    ensures { Reads (λ z. unsigned_abs z < 2 ^ 104) signed_decimal (45 ∷ decimal size) result }
{
    if size == 0 {
        None
    } else {
        Some(-(size as i128))
    }
}

/// The whole number below 2^104 in size that is written so.
pub(crate) fn whole(bytes: &[u8]) -> Option<i128>
    ensures { Reads (λ z. unsigned_abs z < 2 ^ 104) signed_decimal bytes.now result }
{
    match bytes {
        [b'-', digits @ ..] => negative(natural(digits)?),
        _ => Some(natural(bytes)? as i128),
    }
}
