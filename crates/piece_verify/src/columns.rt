// Columns of one value.
ghost use Rattle.std.specs.Prelude.{◌≡◌, ◌<◌, ◌≤◌, ◌^◌, MatchOption};
ghost use Rattle.std.specs.Fmt.{decimal, signed_decimal};
ghost use Rattle.sheet_plan.specs.LineKinds.{word_of};
ghost use Rattle.plot_rack.specs.Lists.{frac_text};
ghost use Rattle.piece_verify.specs.Columns.{Reads, IsColumn, HasNoColumn};
ghost use Rattle.piece_verify.specs.Values.{IsView, IsInRange, IsListedFrac, IsAny};

use crate::digits::{natural, whole};
use crate::fractions::fraction;
use crate::marks::mark;
use crate::split::split_at_byte;
use exact_frac::Frac;
use sheet_plan::Mark;

/// From here on a view's number is too large.
const END: u128 = 1 << 32;

/// The number as that of a view, at least this one, where it is one.
fn view_of(number: u128, least: u32) -> Option<u32>
    ensures { MatchOption result (IsView least number → ⊥) (λ view. (view ≡ number) × IsView least number) }
{
    if number < u128::from(least) || number >= END {
        None
    } else {
        Some(number as u32)
    }
}

/// The view's number, at least this one, that is written so.
fn view(bytes: &[u8], least: u32) -> Option<u32>
    ensures { Reads (IsView least) decimal bytes.now result }
{
    view_of(natural(bytes)?, least)
}

/// The number as an `i64`, where it is in its range.
fn number_of(number: i128) -> Option<i64>
    ensures { MatchOption result (IsInRange number → ⊥) (λ narrow. (narrow ≡ number) × IsInRange number) }
{
    if number < i128::from(i64::MIN) || number > i128::from(i64::MAX) {
        None
    } else {
        Some(number as i64)
    }
}

/// The `i64` that is written so.
fn number(bytes: &[u8]) -> Option<i64>
    ensures { Reads IsInRange signed_decimal bytes.now result }
{
    number_of(whole(bytes)?)
}

/// The column of a view, at least this one.
pub(crate) fn view_column(text: &[u8], least: u32) -> Option<(u32, &[u8])>
    ensures { MatchOption result (HasNoColumn (IsView least) decimal 32 text.now) (λ r. IsColumn (IsView least) decimal 32 text.now r.0 r.1.now) }
{
    let (column, rest) = split_at_byte(text, b' ')?;
    Some((view(column, least)?, rest))
}

/// The column of a mark.
pub(crate) fn mark_column(text: &[u8]) -> Option<(Mark, &[u8])>
    ensures { MatchOption result (HasNoColumn IsAny word_of 32 text.now) (λ r. IsColumn IsAny word_of 32 text.now r.0 r.1.now) }
{
    let (column, rest) = split_at_byte(text, b' ')?;
    Some((mark(column)?, rest))
}

/// The column of a fraction.
pub(crate) fn fraction_column(text: &[u8]) -> Option<(Frac, &[u8])>
    ensures { MatchOption result (HasNoColumn IsListedFrac frac_text 32 text.now) (λ r. IsColumn IsListedFrac frac_text 32 text.now r.0 r.1.now) }
{
    let (column, rest) = split_at_byte(text, b' ')?;
    Some((fraction(column)?, rest))
}

/// The column of an `i64`.
pub(crate) fn number_column(text: &[u8], end: u8) -> Option<(i64, &[u8])>
    requires { end < 45 }
    ensures { MatchOption result (HasNoColumn IsInRange signed_decimal end text.now) (λ r. IsColumn IsInRange signed_decimal end text.now r.0 r.1.now) }
{
    let (column, rest) = split_at_byte(text, end)?;
    Some((number(column)?, rest))
}
