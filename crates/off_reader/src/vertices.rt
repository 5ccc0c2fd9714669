// Vertices: three coordinates each.
ghost use Rattle.std.specs.Prelude.{◌≡◌, ◌≤◌, length, map, IfOk};
ghost use Rattle.lattice.specs.Points.{of_corner};
ghost use Rattle.part_text.specs.Vertices.{Vertex};
ghost use Rattle.part_text.specs.Steps.{Times};
ghost use Rattle.part_text.specs.Made.{IsMade};

use dec_text::Length;
use lattice::Corner;
use lex_lines::Tokens;
use part_text::read_vertex;
use std::alloc::Global;
use weld::PartError;

/// Reads so many vertices.
pub(crate) fn read_vertices(
    alloc: Global,
    bytes: &[u8],
    tokens: &mut Tokens<'_>,
    decimals: u8,
    unit: Length,
    count: u32,
) -> Result<Vec<Corner>, PartError>
    requires same { tokens.old.text ≡ bytes.now }
    requires few { decimals ≤ 6 }
    requires short { length bytes.now ≤ 16777216 }
    ensures step { IsMade (λ v. map of_corner v.items) (Times count (Vertex decimals unit bytes.now) tokens.old.left) result tokens.new.left }
    ensures text { tokens.new.text ≡ tokens.old.text }
    ensures comments { tokens.new.comments ≡ tokens.old.comments }
    ensures count { IfOk result (λ v. length v.items ≡ count) }
{
    let mut vertices = Vec::new(alloc);
    for _ in 0..count {
        match read_vertex(bytes, tokens, decimals, unit) {
            Ok(vertex) => vertices.push(vertex)?,
            Err(fault) => return Err(PartError::Part(fault)),
        }
    }
    Ok(vertices)
}
