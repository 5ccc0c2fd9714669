// Lengths by the unit that a sheet says them in.
ghost use Rattle.std.specs.Prelude.{◌≡◌, ◌≤◌, ◌^◌, IfOk, string_bytes, unsigned_abs};
ghost use Rattle.length_text.specs.Places.{length_text};

use crate::inches::inch_text;
use crate::millimetres::mm_text;
use dec_text::Length;
use std::alloc::{AllocError, Global};

/// How a sheet says lengths: they are whole numbers of 10^-`decimals` mm, with at most 6 decimals, and are said in this unit.
#[derive(Clone, Copy, Debug)]
pub struct LengthForm {
    pub decimals: u8,
    pub unit: Length,
    ghost few: { decimals ≤ 6 },
}

/// So many units as this form says them: exact in millimetres, without zeros at the end, or in inches with four decimals.
pub fn length_text(alloc: Global, form: LengthForm, units: i64) -> Result<String, AllocError>
    requires { unsigned_abs units ≤ 2 ^ 21 }
    ensures { IfOk result (λ text. string_bytes text ≡ length_text form.decimals form.unit units) }
{
    match form.unit {
        Length::Millimetre => mm_text(alloc, form.decimals, units),
        Length::Inch => inch_text(alloc, form.decimals, units),
    }
}
