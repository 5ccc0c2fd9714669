// Whole numbers and fractions as texts.
ghost use Rattle.std.specs.Prelude.{◌≡◌, ◌⊎◌, ◌<ℤ◌, ℕ, ℤ, pos, List, ◌++◌, string_bytes, codes, OnOk, OnErr, IfOk};
ghost use Rattle.std.specs.Fmt.{signed_decimal};
ghost use Rattle.dec_text.specs.Texts.{IsFractionText, IsRatioText};

use exact_frac::{Frac, OutOfMemory};
use std::alloc::Global;

/// Writes a whole number at the end: its digits, behind `-` where it is negative. Where memory runs out, `out` is as it
/// was.
pub fn push_int(out: &mut Vec<u8>, value: i128) -> Result<(), OutOfMemory>
    ensures text { OnOk result (out.new.items ≡ out.old.items ++ signed_decimal value) }
    ensures unchanged { OnErr result (out.new.items ≡ out.old.items) }
{
    let text = format!(in *out.allocator(); "{value}")?;
    out.extend_from_slice(text.as_bytes())?;
    Ok(())
}

/// A ratio as `num`, where the second number is 1, or else as `num/den`.
fn ratio_text(alloc: Global, num: i128, den: i128) -> Result<String, OutOfMemory>
    requires { pos 0 <ℤ den }
    ensures { IfOk result (λ text. IsRatioText num den (string_bytes text)) }
{
    if den == 1 {
        return Ok(format!(in alloc; "{num}")?);
    }
    Ok(format!(in alloc; "{num}/{den}")?)
}

/// Writes a fraction at the end, in lowest terms: `num/den`, or `num` where it is a whole number. Where memory runs out,
/// `out` is as it was.
pub fn push_frac(out: &mut Vec<u8>, value: &Frac) -> Result<(), OutOfMemory>
    ensures text { OnOk result ((text : List ℕ) × IsFractionText value.now text × (out.new.items ≡ out.old.items ++ text)) }
    ensures unchanged { OnErr result (out.new.items ≡ out.old.items) }
{
    let lowest = value.reduce();
    let text = ratio_text(*out.allocator(), lowest.num, lowest.den)?;
    out.extend_from_slice(text.as_bytes())?;
    Ok(())
}
