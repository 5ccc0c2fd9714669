// What a number of a line means.
ghost use Rattle.std.specs.Prelude.{◌≡◌, ◌≤◌, IfSome, IsTrue, unsigned_abs, map, option_map, option_copied};
ghost use Rattle.std.specs.Char.{is_ascii_digit};
ghost use Rattle.std.specs.List.{list_all, list_any};
ghost use Rattle.lattice.specs.Points.{of_dir};
ghost use Rattle.job_text.specs.Seen.{item_seen, written_seen};
ghost use Rattle.sheet_job.specs.WrittenValues.{decimals_digit, decimals_in, digit_value, signed_digit, small_number, small_in, not_zero, toward_of, toward_in, after_sign, has_point_form, is_length, length_in};

use job_text::{TextItem, Written};
use lattice::{Dir, DirFault};

/// One of the digits 0 to 6.
pub(crate) fn decimals_digit(word: &[u8]) -> Option<u8>
    ensures value { result ≡ decimals_digit word.now }
    ensures few { IfSome result (λ n. n ≤ 6) }
{
    match word {
        [byte] if b'0' <= *byte && *byte <= b'6' => Some(*byte - b'0'),
        _ => None,
    }
}

/// The number of decimals, or none for one that fits.
pub(crate) fn decimals_in(value: &Written) -> Option<Option<u8>>
    ensures { result ≡ decimals_in (written_seen value.now) }
{
    match value {
        Written::One(TextItem::Number(word)) => match decimals_digit(word) {
            Some(decimals) => Some(Some(decimals)),
            None => None,
        },
        Written::One(TextItem::Text(text)) if text.as_str() == "fit" => Some(None),
        _ => None,
    }
}

/// What a digit stands for.
fn digit_value(byte: u8) -> Option<i64>
    ensures value { result ≡ digit_value byte }
    ensures size { IfSome result (λ n. unsigned_abs n ≤ 9) }
{
    if byte.is_ascii_digit() {
        Some(i64::from(byte - b'0'))
    } else {
        None
    }
}

/// What a digit behind a sign stands for.
fn signed_digit(sign: u8, byte: u8) -> Option<i64>
    ensures value { result ≡ signed_digit sign byte }
    ensures size { IfSome result (λ n. unsigned_abs n ≤ 9) }
{
    let value = digit_value(byte)?;
    if sign == b'+' {
        Some(value)
    } else if sign == b'-' {
        Some(-value)
    } else {
        None
    }
}

/// One digit, maybe behind a sign.
fn small_number(word: &[u8]) -> Option<i64>
    ensures value { result ≡ small_number word.now }
    ensures size { IfSome result (λ n. unsigned_abs n ≤ 9) }
{
    match word {
        [byte] => digit_value(*byte),
        [sign, byte] => signed_digit(*sign, *byte),
        _ => None,
    }
}

/// The small number that an item is.
fn small_in(item: &TextItem) -> Option<i64>
    ensures value { result ≡ small_in (item_seen item.now) }
    ensures size { IfSome result (λ n. unsigned_abs n ≤ 9) }
{
    match item {
        TextItem::Number(word) => small_number(word),
        _ => None,
    }
}

/// The direction with these components, if they aren't all 0.
fn direction(x: i64, y: i64, z: i64) -> Option<Dir>
    requires x { unsigned_abs x ≤ 9 }
    requires y { unsigned_abs y ≤ 9 }
    requires z { unsigned_abs z ≤ 9 }
    ensures { option_map of_dir result ≡ not_zero (record { x = x; y = y; z = z }) }
{
    match Dir::new(x, y, z) {
        Ok(direction) => Some(direction),
        Err(DirFault::ZeroDirection) => None,
        Err(DirFault::DirectionRange(_)) => unreachable!(),
    }
}

/// The direction of three small numbers, not all 0.
fn toward_of(items: &[TextItem]) -> Option<Dir>
    ensures { option_map of_dir result ≡ toward_of (map item_seen items.now) }
{
    let [x, y, z] = items else {
        return None;
    };
    let x = small_in(x)?;
    let y = small_in(y)?;
    let z = small_in(z)?;
    direction(x, y, z)
}

/// The direction that a view looks from.
pub(crate) fn toward_in(value: &Written) -> Option<Dir>
    ensures { option_map of_dir result ≡ toward_in (written_seen value.now) }
{
    match value {
        Written::Several(items) => toward_of(items),
        Written::One(_) => None,
    }
}

/// The bytes are all digits.
fn are_digits(text: &[u8]) -> bool
    ensures { result ≡ list_all is_ascii_digit text.now }
{
    text.iter().all(|byte| byte.is_ascii_digit())
}

/// A digit is among the bytes.
fn has_digit(text: &[u8]) -> bool
    ensures { result ≡ list_any is_ascii_digit text.now }
{
    text.iter().any(|byte| byte.is_ascii_digit())
}

/// The text after its sign, if it has one.
fn after_sign(text: &[u8]) -> &[u8]
    ensures { result.now ≡ after_sign text.now }
{
    match text {
        [b'+' | b'-', rest @ ..] => rest,
        _ => text,
    }
}

/// Digits, and maybe a point before, among or after them.
#[tactic(auto, using(crate::proofs::NumberLemmas::point_at, crate::proofs::NumberLemmas::digit_at, crate::proofs::NumberLemmas::other_at))]
fn has_point_form(text: &[u8]) -> bool
    ensures { result ≡ has_point_form text.now }
{
    for i in 0..text.len() {
        if text[i] == b'.' {
            return are_digits(&text[i + 1..]);
        }
        if !text[i].is_ascii_digit() {
            return false;
        }
    }
    true
}

/// A number as coordinates have it, without an exponent.
pub(crate) fn is_length(word: &[u8]) -> bool
    ensures { result ≡ is_length word.now }
{
    has_point_form(after_sign(word)) && has_digit(word) && word.len() <= 16_777_216
}

/// The length that the value is, as it is written.
pub(crate) fn length_in(value: &Written) -> Option<&[u8]>
    ensures value { option_copied result ≡ length_in (written_seen value.now) }
    ensures proper { IfSome result (λ word. IsTrue (is_length word.now)) }
{
    match value {
        Written::One(TextItem::Number(word)) if is_length(word) => Some(word.as_slice()),
        _ => None,
    }
}
