// Columns of two values.
ghost use Rattle.std.specs.Prelude.{◌<◌, MatchOption};
ghost use Rattle.piece_verify.specs.Columns.{IsColumn, HasNoColumn};
ghost use Rattle.piece_verify.specs.inner.Pairs.{AreNumbers, numbers_text, AreFractions, fractions_text};

use crate::columns::{fraction_column, number_column};
use exact_frac::Frac;

/// The columns of two numbers.
pub(crate) fn number_pair(text: &[u8], end: u8) -> Option<((i64, i64), &[u8])>
    requires { end < 45 }
    ensures { MatchOption result (HasNoColumn AreNumbers numbers_text end text.now) (λ r. IsColumn AreNumbers numbers_text end text.now r.0 r.1.now) }
{
    let (first, text) = number_column(text, b' ')?;
    let (second, rest) = number_column(text, end)?;
    Some(((first, second), rest))
}

/// The columns of two fractions.
pub(crate) fn fraction_pair(text: &[u8]) -> Option<((Frac, Frac), &[u8])>
    ensures { MatchOption result (HasNoColumn AreFractions fractions_text 32 text.now) (λ r. IsColumn AreFractions fractions_text 32 text.now r.0 r.1.now) }
{
    let (first, text) = fraction_column(text)?;
    let (second, rest) = fraction_column(text)?;
    Some(((first, second), rest))
}
