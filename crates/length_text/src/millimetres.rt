// Lengths in millimetres, as a line says them.
ghost use Rattle.std.specs.Prelude.{◌≡◌, ◌≤◌, ◌<◌, ◌^◌, IfOk, string_bytes};
ghost use Rattle.length_text.specs.Lengths.{behind_point, digits, whole_text, mm_text};

use std::alloc::{AllocError, Global};

/// So many zeros behind a one.
pub(crate) fn power_of_ten(zeros: u8) -> u64
    requires { zeros ≤ 6 }
    ensures value { result ≡ 10 ^ zeros }
    ensures least { 1 ≤ result }
    ensures most { result ≤ 1000000 }
{
    match zeros {
        0 => 1,
        1 => 10,
        2 => 100,
        3 => 1_000,
        4 => 10_000,
        5 => 100_000,
        _ => 1_000_000,
    }
}

/// The digits behind a point, without zeros at their end.
fn digits(alloc: Global, count: u8, rest: u64) -> Result<String, AllocError>
    requires few { count ≤ 6 }
    requires below { rest < 10 ^ count }
    ensures { IfOk result (λ text. string_bytes text ≡ digits count rest) }
{
    if rest == 0 || count == 0 {
        return Ok(String::new(alloc));
    }
    let place = power_of_ten(count - 1);
    let first = rest / place;
    let others = digits(alloc, count - 1, rest % place)?;
    format!(in alloc; "{first}{others}")
}

/// The same with their point, where there is a digit.
fn behind_point(alloc: Global, count: u8, rest: u64) -> Result<String, AllocError>
    requires few { count ≤ 6 }
    requires below { rest < 10 ^ count }
    ensures { IfOk result (λ text. string_bytes text ≡ behind_point count rest) }
{
    if rest == 0 {
        return Ok(String::new(alloc));
    }
    let digits = digits(alloc, count, rest)?;
    format!(in alloc; ".{digits}")
}

/// A length in mm.
fn whole_text(alloc: Global, decimals: u8, units: u64) -> Result<String, AllocError>
    requires { decimals ≤ 6 }
    ensures { IfOk result (λ text. string_bytes text ≡ whole_text decimals units) }
{
    let unit = power_of_ten(decimals);
    let whole = units / unit;
    let behind = behind_point(alloc, decimals, units % unit)?;
    format!(in alloc; "{whole}{behind}")
}

/// So many units of 10^-`decimals` mm, in mm: exact, without zeros at the end.
pub fn mm_text(alloc: Global, decimals: u8, units: i64) -> Result<String, AllocError>
    requires { decimals ≤ 6 }
    ensures { IfOk result (λ text. string_bytes text ≡ mm_text decimals units) }
{
    let length = whole_text(alloc, decimals, units.unsigned_abs())?;
    if units < 0 {
        format!(in alloc; "-{length}")
    } else {
        Ok(length)
    }
}
