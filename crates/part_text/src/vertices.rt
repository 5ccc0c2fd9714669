// Coordinates, and vertices of three each.
ghost use Rattle.std.specs.Prelude.{◌≡◌, ◌≤◌, ◌^◌, length, unsigned_abs, IfOk};
ghost use Rattle.lattice.specs.Points.{of_corner};
ghost use Rattle.part_text.specs.Vertices.{Coordinate, Vertex};
ghost use Rattle.part_text.specs.Made.{made};

use crate::tokens::{bytes_of, fault, next_token};
use dec_text::{Length, NumberFault, fixed};
use lattice::Corner;
use lex_lines::Tokens;
use weld::{PartFault, PartKind, Want};

/// Reads a coordinate, a length in `unit`, read in units of `10^-decimals` mm: at most 1,048,576 of them in size.
pub fn read_coordinate(
    bytes: &[u8],
    tokens: &mut Tokens<'_>,
    decimals: u8,
    unit: Length,
) -> Result<i32, PartFault>
    requires same { tokens.old.text ≡ bytes.now }
    requires few { decimals ≤ 6 }
    requires short { length bytes.now ≤ 16777216 }
    ensures step { Coordinate decimals unit bytes.now tokens.old.left (made (λ v. v) result tokens.new.left) }
    ensures text { tokens.new.text ≡ tokens.old.text }
    ensures comments { tokens.new.comments ≡ tokens.old.comments }
    ensures size { IfOk result (λ v. unsigned_abs v ≤ 2 ^ 20) }
{
    let token = next_token(tokens, Want::Coordinate)?;
    match fixed(bytes_of(bytes, token), decimals, unit) {
        Ok(units) => Ok(units),
        Err(NumberFault::NotANumber(_)) => Err(fault(token.line, PartKind::BadNumber)),
        Err(NumberFault::TooLarge) => Err(fault(token.line, PartKind::TooLarge)),
    }
}

/// Reads a vertex: three coordinates in `unit`, x, y and z.
pub fn read_vertex(
    bytes: &[u8],
    tokens: &mut Tokens<'_>,
    decimals: u8,
    unit: Length,
) -> Result<Corner, PartFault>
    requires same { tokens.old.text ≡ bytes.now }
    requires few { decimals ≤ 6 }
    requires short { length bytes.now ≤ 16777216 }
    ensures step { Vertex decimals unit bytes.now tokens.old.left (made of_corner result tokens.new.left) }
    ensures text { tokens.new.text ≡ tokens.old.text }
    ensures comments { tokens.new.comments ≡ tokens.old.comments }
{
    let x = read_coordinate(bytes, tokens, decimals, unit)?;
    let y = read_coordinate(bytes, tokens, decimals, unit)?;
    let z = read_coordinate(bytes, tokens, decimals, unit)?;
    Ok(Corner { x, y, z })
}
