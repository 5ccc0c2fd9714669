// The whole text.
ghost use Rattle.std.specs.Prelude.{◌≡◌, ◌≤◌, ◌++◌, length, All, IfOk, OnOk};
ghost use Rattle.std.specs.List.{flat_map};
ghost use Rattle.lattice.specs.Triangles.{IsBelow};
ghost use Rattle.dec_text.specs.declared.number.Length.TheVariants.{Millimetre};
ghost use Rattle.part_input.specs.Reading.{ReadsPartText};
ghost use Rattle.off_writer.specs.OffTexts.{corner_line, triangle_line, off_of, raw_of};

use crate::lines::{push_corner, push_head, push_triangle};
use exact_frac::OutOfMemory;
use lattice::{Corner, Tri};
use std::alloc::Global;

/// The part as a text of OFF, in millimetres: the line `OFF`, a line `{corners} {triangles} 0` of their counts, a line
/// `{x} {y} {z}` for each corner, and a line `3 {a} {b} {c}` for each triangle, with the numbers of its corners from 0 on. A
/// line feed ends each line. A coordinate is in units of `10^-decimals` mm, and it is written with so many digits behind a
/// point, with 3 as `12.345`, `-0.005` or `0.000`, with 0 and without a point as `12`. At most 16,777,216 bytes; the time
/// grows with the text.
pub fn off_text(
    alloc: Global,
    decimals: u8,
    corners: &[Corner],
    triangles: &[Tri],
) -> Result<Vec<u8>, OutOfMemory>
    requires decimals { decimals ≤ 6 }
    requires few_corners { length corners.now ≤ 60000 }
    requires few_triangles { length triangles.now ≤ 20000 }
    requires in_range { All (IsBelow (length corners.now)) triangles.now }
    ensures text { IfOk result (λ text. text.items ≡ off_of decimals corners.now triangles.now) }
    ensures read { IfOk result (λ text. ReadsPartText decimals Millimetre text.items (Ok (raw_of corners.now triangles.now))) }
    ensures short { IfOk result (λ text. length text.items ≤ 16777216) }
{
    let mut text = Vec::new(alloc);
    push_head(&mut text, corners.len(), triangles.len())?;
    push_corners(&mut text, decimals, corners)?;
    push_triangles(&mut text, triangles)?;
    Ok(text)
}

/// Writes a line for each corner at the end.
fn push_corners(text: &mut Vec<u8>, decimals: u8, corners: &[Corner]) -> Result<(), OutOfMemory>
    requires { decimals ≤ 6 }
    ensures { OnOk result (text.new.items ≡ text.old.items ++ flat_map (corner_line decimals) corners.now) }
{
    for corner in corners {
        push_corner(text, decimals, corner)?;
    }
    Ok(())
}

/// Writes a line for each triangle at the end.
fn push_triangles(text: &mut Vec<u8>, triangles: &[Tri]) -> Result<(), OutOfMemory>
    ensures { OnOk result (text.new.items ≡ text.old.items ++ flat_map triangle_line triangles.now) }
{
    for triangle in triangles {
        push_triangle(text, triangle)?;
    }
    Ok(())
}
