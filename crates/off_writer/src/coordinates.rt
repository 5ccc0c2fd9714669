// Coordinates as decimal numbers with a fixed number of decimals.
ghost use Rattle.std.specs.Prelude.{◌≡◌, ◌≤◌, ◌++◌, OnOk};
ghost use Rattle.off_writer.specs.OffTexts.{last_digits, fraction_text, size_text, sign_text, coordinate_text};

use dec_text::push_int;
use exact_frac::OutOfMemory;

/// Writes a coordinate at the end: a length in units, of which `10^decimals` make a millimetre, in millimetres.
pub(crate) fn push_coordinate(
    text: &mut Vec<u8>,
    decimals: u8,
    units: i32,
) -> Result<(), OutOfMemory>
    requires { decimals ≤ 6 }
    ensures { OnOk result (text.new.items ≡ text.old.items ++ coordinate_text decimals units) }
{
    push_sign(text, units)?;
    push_size(text, decimals, units.unsigned_abs())
}

/// Writes the sign of a negative number at the end.
fn push_sign(text: &mut Vec<u8>, units: i32) -> Result<(), OutOfMemory>
    ensures { OnOk result (text.new.items ≡ text.old.items ++ sign_text units) }
{
    if units < 0 {
        text.push(b'-')?;
    }
    Ok(())
}

/// Writes a number of units at the end.
fn push_size(text: &mut Vec<u8>, decimals: u8, units: u32) -> Result<(), OutOfMemory>
    requires { decimals ≤ 6 }
    ensures { OnOk result (text.new.items ≡ text.old.items ++ size_text decimals units) }
{
    let whole = units / 10u32.pow(u32::from(decimals));
    push_int(text, i128::from(whole))?;
    push_fraction(text, decimals, units)
}

/// Writes a point and the digits behind it at the end, where there are any.
fn push_fraction(text: &mut Vec<u8>, decimals: u8, units: u32) -> Result<(), OutOfMemory>
    ensures { OnOk result (text.new.items ≡ text.old.items ++ fraction_text decimals units) }
{
    if decimals == 0 {
        return Ok(());
    }
    text.push(b'.')?;
    push_digits(text, decimals, units)
}

/// Writes the last digits of a number at the end, so many of them, zeros in front where it has fewer.
fn push_digits(text: &mut Vec<u8>, count: u8, number: u32) -> Result<(), OutOfMemory>
    ensures { OnOk result (text.new.items ≡ text.old.items ++ last_digits count number) }
{
    if count == 0 {
        return Ok(());
    }
    push_digits(text, count - 1, number / 10)?;
    text.push(b'0' + (number % 10) as u8)?;
    Ok(())
}
