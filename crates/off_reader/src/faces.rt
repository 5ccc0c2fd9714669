// Faces: a count, so many vertices, and the rest of the line.
ghost use Rattle.std.specs.Prelude.{◌≡◌, ◌+◌, ◌-◌, ◌<◌, ◌≤◌, List, length, map, All, IfOk};
ghost use Rattle.lattice.specs.Points.{of_corner};
ghost use Rattle.lattice.specs.Triangles.{IsBelow};
ghost use Rattle.lex_lines.specs.declared.token.Token.{Token};
ghost use Rattle.off_reader.specs.Off.{Size, Index, Triangles, Face, Faces};
ghost use Rattle.off_reader.specs.inner.Rows.{Numbers};
ghost use Rattle.part_text.specs.Made.{made, IsMade};

use crate::counts::{Counted, read_count};
use crate::fan::fan;
use lattice::{Corner, Tri};
use lex_lines::Tokens;
use part_text::fault;
use std::alloc::Global;
use weld::{PartError, PartFault, PartKind, Want};

/// The numbers of a face's vertices, and the line of the last.
#[derive(Drop)]
struct Indices {
    numbers: Vec<u32>,
    line: u32,
}

/// Reads how many corners a face has, where there are so many triangles before.
fn read_size(bytes: &[u8], tokens: &mut Tokens<'_>, before: usize) -> Result<Counted, PartFault>
    requires same { tokens.old.text ≡ bytes.now }
    requires few { before ≤ 20000 }
    ensures step { Size bytes.now before tokens.old.left (made (λ n. (n.value, n.line)) result tokens.new.left) }
    ensures text { tokens.new.text ≡ tokens.old.text }
    ensures least { IfOk result (λ n. 3 ≤ n.value) }
    ensures most { IfOk result (λ n. n.value ≤ 64) }
    ensures room { IfOk result (λ n. before + (n.value - 2) ≤ 20000) }
{
    let size = match read_count(bytes, tokens, Want::FaceSize) {
        Ok(size) => size,
        Err(fault) => return Err(fault),
    };
    if size.value < 3 || size.value > 64 {
        return Err(fault(size.line, PartKind::FaceSize(size.value)));
    }
    if before + (size.value as usize - 2) > 20000 {
        return Err(fault(size.line, PartKind::TooMany));
    }
    Ok(size)
}

/// Reads the number of one of `vertices` vertices.
fn read_index(bytes: &[u8], tokens: &mut Tokens<'_>, vertices: usize) -> Result<Counted, PartFault>
    requires same { tokens.old.text ≡ bytes.now }
    ensures step { Index bytes.now vertices tokens.old.left (made (λ n. (n.value, n.line)) result tokens.new.left) }
    ensures text { tokens.new.text ≡ tokens.old.text }
    ensures line { IfOk result (λ n. tokens.new.line ≡ n.line) }
    ensures below { IfOk result (λ n. n.value < vertices) }
{
    let index = match read_count(bytes, tokens, Want::Index) {
        Ok(index) => index,
        Err(fault) => return Err(fault),
    };
    if index.value >= vertices as u64 {
        return Err(fault(index.line, PartKind::BadIndex(index.value)));
    }
    Ok(index)
}

/// Reads the numbers of a face's vertices.
fn read_indices(
    alloc: Global,
    bytes: &[u8],
    tokens: &mut Tokens<'_>,
    vertices: usize,
    count: u64,
) -> Result<Indices, PartError>
    requires same { tokens.old.text ≡ bytes.now }
    requires few { vertices ≤ 60000 }
    requires some { 0 < count }
    ensures step { IsMade (λ i. (i.numbers.items, i.line)) (Numbers bytes.now vertices count tokens.old.left) result tokens.new.left }
    ensures text { tokens.new.text ≡ tokens.old.text }
    ensures line { IfOk result (λ i. tokens.new.line ≡ i.line) }
    ensures count { IfOk result (λ i. length i.numbers.items ≡ count) }
    ensures below { IfOk result (λ i. All (λ n. n < vertices) i.numbers.items) }
{
    let mut numbers = Vec::new(alloc);
    let mut line = 0;
    for _ in 0..count {
        match read_index(bytes, tokens, vertices) {
            Ok(index) => {
                numbers.push(index.value as u32)?;
                line = index.line;
            }
            Err(fault) => return Err(PartError::Part(fault)),
        }
    }
    Ok(Indices { numbers, line })
}

/// The triangles of the face with this number, whose corner count is on this line.
fn triangles_of(
    alloc: Global,
    vertices: &[Corner],
    number: u32,
    line: u32,
    numbers: &[u32],
) -> Result<Vec<Tri>, PartError>
    requires some { 3 ≤ length numbers.now }
    requires few { length numbers.now ≤ 64 }
    requires within { All (λ i. i < length vertices.now) numbers.now }
    ensures step { (left : List Token) → IsMade (λ v. v.items) (Triangles (map of_corner vertices.now) number line numbers.now left) result left }
    ensures below { IfOk result (λ v. All (IsBelow (length vertices.now)) v.items) }
    ensures count { IfOk result (λ v. length v.items + 2 ≡ length numbers.now) }
{
    if numbers.len() == 3 {
        let mut triangles = Vec::new(alloc);
        triangles.push(Tri {
            a: numbers[0],
            b: numbers[1],
            c: numbers[2],
        })?;
        return Ok(triangles);
    }
    match fan(alloc, vertices, numbers) {
        Ok(Some(triangles)) => Ok(triangles),
        Ok(None) => Err(PartError::Part(fault(line, PartKind::FaceUnseen(number)))),
        Err(memory) => Err(PartError::Memory(memory)),
    }
}

/// Reads the face with this number.
fn read_face(
    alloc: Global,
    bytes: &[u8],
    tokens: &mut Tokens<'_>,
    vertices: &[Corner],
    number: u32,
    before: usize,
) -> Result<Vec<Tri>, PartError>
    requires same { tokens.old.text ≡ bytes.now }
    requires few { before ≤ 20000 }
    requires few_vertices { length vertices.now ≤ 60000 }
    ensures step { IsMade (λ v. v.items) (Face bytes.now (map of_corner vertices.now) number before tokens.old.left) result tokens.new.left }
    ensures text { tokens.new.text ≡ tokens.old.text }
    ensures below { IfOk result (λ v. All (IsBelow (length vertices.now)) v.items) }
    ensures room { IfOk result (λ v. before + length v.items ≤ 20000) }
{
    let size = match read_size(bytes, tokens, before) {
        Ok(size) => size,
        Err(fault) => return Err(PartError::Part(fault)),
    };
    let indices = match read_indices(alloc, bytes, tokens, vertices.len(), size.value) {
        Ok(indices) => indices,
        Err(error) => return Err(error),
    };
    tokens.skip_line();
    triangles_of(alloc, vertices, number, size.line, &indices.numbers)
}

/// Reads so many faces, as triangles.
pub(crate) fn read_faces(
    alloc: Global,
    bytes: &[u8],
    tokens: &mut Tokens<'_>,
    vertices: &[Corner],
    count: u32,
) -> Result<Vec<Tri>, PartError>
    requires same { tokens.old.text ≡ bytes.now }
    requires few_vertices { length vertices.now ≤ 60000 }
    ensures step { IsMade (λ v. v.items) (Faces bytes.now (map of_corner vertices.now) count 0 0 tokens.old.left) result tokens.new.left }
    ensures text { tokens.new.text ≡ tokens.old.text }
    ensures below { IfOk result (λ v. All (IsBelow (length vertices.now)) v.items) }
    ensures most { IfOk result (λ v. length v.items ≤ 20000) }
{
    let mut triangles = Vec::new(alloc);
    for number in 0..count {
        match read_face(alloc, bytes, tokens, vertices, number, triangles.len()) {
            Ok(mut face) => triangles.append(&mut face)?,
            Err(error) => return Err(error),
        }
    }
    Ok(triangles)
}
