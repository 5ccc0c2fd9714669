// Fractions, as they are written.
ghost use Rattle.std.specs.Prelude.{◌≡◌, ◌∷◌, ◌++◌, ◌<◌, ◌^◌, pos, unsigned_abs, MatchOption};
ghost use Rattle.plot_rack.specs.Lists.{frac_text};
ghost use Rattle.piece_verify.specs.Columns.{IsFree, Reads};
ghost use Rattle.piece_verify.specs.Values.{IsListedFrac};
ghost use Rattle.piece_verify.specs.inner.Ratios.{IsRatio};

use crate::digits::{natural, whole};
use crate::split::split_at_byte;
use exact_frac::{Frac, gcd};

/// From here on a denominator is too large.
const END: u128 = 1 << 70;

/// The fraction with these numbers, where they are in lowest terms, and the second is above 1 and not too large.
fn ratio_of(num: i128, den: u128) -> Option<Frac>
    requires { unsigned_abs num < 2 ^ 104 }
    ensures { MatchOption result (IsRatio num den → ⊥) (λ f. IsRatio num den × (f.num ≡ num) × (f.den ≡ pos den)) }
{
    if den < 2 || den >= END {
        return None;
    }
    let den = den as i128;
    if gcd(num, den) != 1 {
        return None;
    }
    Some(Frac { num, den })
}

/// The fraction that is written by these numbers.
fn ratio(num: &[u8], den: &[u8]) -> Option<Frac>
    requires { IsFree 47 num.now }
    ensures { Reads IsListedFrac frac_text (num.now ++ 47 ∷ den.now) result }
{
    ratio_of(whole(num)?, natural(den)?)
}

/// The fraction that is written by one number.
fn whole_fraction(bytes: &[u8]) -> Option<Frac>
    requires { IsFree 47 bytes.now }
    ensures { Reads IsListedFrac frac_text bytes.now result }
{
    Some(Frac {
        num: whole(bytes)?,
        den: 1,
    })
}

/// The fraction that is written so: in lowest terms, below 2^104 in size above the line, and below 2^70 under it.
pub(crate) fn fraction(bytes: &[u8]) -> Option<Frac>
    ensures { Reads IsListedFrac frac_text bytes.now result }
{
    match split_at_byte(bytes, b'/') {
        Some((num, den)) => ratio(num, den),
        None => whole_fraction(bytes),
    }
}
