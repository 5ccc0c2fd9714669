// Lengths in inches, with four decimals.
ghost use Rattle.std.specs.Prelude.{◌≡◌, ◌≤◌, ◌<◌, ◌^◌, ◌*◌, pos, ◌*ℤ◌, IfOk, string_bytes, unsigned_abs};
ghost use Rattle.length_text.specs.Inches.{IsNearest, half_up, inch_parts, inch_text, inch_units, parts_text, tail_text};

use crate::millimetres::power_of_ten;
use std::alloc::{AllocError, Global};

/// So many tenths of a unit of 10^-`decimals` mm are an inch.
fn inch_units(decimals: u8) -> u64
    requires { decimals ≤ 6 }
    ensures value { result ≡ inch_units decimals }
    ensures least { 254 ≤ result }
    ensures most { result ≤ 254000000 }
{
    254 * power_of_ten(decimals)
}

/// So many units in ten-thousandths of an inch, which is so many tenths of a unit.
fn half_up(units: i64, inch: u64) -> i64
    requires least { 254 ≤ inch }
    requires most { inch ≤ 254000000 }
    requires small { unsigned_abs units ≤ 2 ^ 21 }
    ensures value { result ≡ half_up inch units }
    ensures size { unsigned_abs result < 2 ^ 40 }
{
    let inch = inch as i64;
    (200_000 * units + inch).div_euclid(2 * inch)
}

/// So many units of 10^-`decimals` mm in ten-thousandths of an inch: the nearest whole number, and of two the greater.
pub fn inch_parts(decimals: u8, units: i64) -> i64
    requires few { decimals ≤ 6 }
    requires small { unsigned_abs units ≤ 2 ^ 21 }
    ensures value { result ≡ inch_parts decimals units }
    ensures nearest { IsNearest decimals units result }
    ensures size { unsigned_abs result < 2 ^ 40 }
{
    half_up(units, inch_units(decimals))
}

/// The point and the four digits behind it.
fn tail_text(alloc: Global, parts: u64) -> Result<String, AllocError>
    ensures { IfOk result (λ text. string_bytes text ≡ tail_text parts) }
{
    let (first, second) = (parts / 1000 % 10, parts / 100 % 10);
    let (third, fourth) = (parts / 10 % 10, parts % 10);
    format!(in alloc; ".{first}{second}{third}{fourth}")
}

/// So many ten-thousandths as a number with four decimals.
fn parts_text(alloc: Global, parts: i64) -> Result<String, AllocError>
    ensures { IfOk result (λ text. string_bytes text ≡ parts_text parts) }
{
    let size = parts.unsigned_abs();
    let whole = size / 10_000;
    let tail = tail_text(alloc, size)?;
    if parts < 0 {
        format!(in alloc; "-{whole}{tail}")
    } else {
        format!(in alloc; "{whole}{tail}")
    }
}

/// So many units of 10^-`decimals` mm, in inches with four decimals: the error is at most half of the last.
pub fn inch_text(alloc: Global, decimals: u8, units: i64) -> Result<String, AllocError>
    requires few { decimals ≤ 6 }
    requires small { unsigned_abs units ≤ 2 ^ 21 }
    ensures { IfOk result (λ text. string_bytes text ≡ inch_text decimals units) }
{
    parts_text(alloc, inch_parts(decimals, units))
}
