// The lines of a text: its head, and those of a corner and of a triangle.
ghost use Rattle.std.specs.Prelude.{◌≡◌, ◌≤◌, ◌++◌, OnOk};
ghost use Rattle.off_writer.specs.OffTexts.{head_text, corner_line, triangle_line};

use crate::coordinates::push_coordinate;
use exact_frac::OutOfMemory;
use lattice::{Corner, Tri};

/// Writes the two lines in front of the corners at the end.
pub(crate) fn push_head(
    text: &mut Vec<u8>,
    corners: usize,
    triangles: usize,
) -> Result<(), OutOfMemory>
    ensures { OnOk result (text.new.items ≡ text.old.items ++ head_text corners triangles) }
{
    let head = format!(in *text.allocator(); "OFF\n{corners} {triangles} 0\n")?;
    text.extend_from_slice(head.as_bytes())?;
    Ok(())
}

/// Writes a corner's line at the end.
pub(crate) fn push_corner(
    text: &mut Vec<u8>,
    decimals: u8,
    corner: &Corner,
) -> Result<(), OutOfMemory>
    requires { decimals ≤ 6 }
    ensures { OnOk result (text.new.items ≡ text.old.items ++ corner_line decimals corner.now) }
{
    push_coordinate(text, decimals, corner.x)?;
    text.push(b' ')?;
    push_coordinate(text, decimals, corner.y)?;
    text.push(b' ')?;
    push_coordinate(text, decimals, corner.z)?;
    text.push(b'\n')?;
    Ok(())
}

/// Writes a triangle's line at the end.
pub(crate) fn push_triangle(text: &mut Vec<u8>, triangle: &Tri) -> Result<(), OutOfMemory>
    ensures { OnOk result (text.new.items ≡ text.old.items ++ triangle_line triangle.now) }
{
    let (a, b, c) = (triangle.a, triangle.b, triangle.c);
    let line = format!(in *text.allocator(); "3 {a} {b} {c}\n")?;
    text.extend_from_slice(line.as_bytes())?;
    Ok(())
}
