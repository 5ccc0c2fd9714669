// Sides in chunks with their boxes, and the length of a side that is near others.
ghost use Rattle.std.specs.Prelude.{◌≡◌, ◌+◌, ◌<◌, ◌≤◌, ◌*◌, ◌^◌, ◌++◌, All, IfOk, OnOk};
ghost use Rattle.std.specs.List.{list_any};
ghost use Rattle.near_lines.specs.Near.{is_near, length_of, near_length, near_parts, near_total, parts_of};
ghost use Rattle.near_lines.specs.Sides.{IsSmall};
ghost use Rattle.near_lines.specs.inner.Chunks.{is_missed, sides_of};

use crate::chunk::{Chunk, chunk_of};
use crate::extent::Extent;
use crate::near::{is_near, length_of, part_of};
use crate::sides::Side;
use exact_frac::OutOfMemory;
use std::alloc::Global;

/// How many sides a chunk has at most.
const MOST: usize = 128;

/// Adds a chunk of these sides.
fn add_chunk(alloc: Global, chunks: &mut Vec<Chunk>, sides: &[Side]) -> Result<(), OutOfMemory>
    requires small { All IsSmall sides.now }
    ensures { OnOk result (sides_of chunks.new.items ≡ sides_of chunks.old.items ++ sides.now) }
{
    chunks.push(chunk_of(alloc, sides)?)?;
    Ok(())
}

/// Adds chunks of these sides.
fn add_chunks(alloc: Global, chunks: &mut Vec<Chunk>, sides: &[Side]) -> Result<(), OutOfMemory>
    requires small { All IsSmall sides.now }
    ensures { OnOk result (sides_of chunks.new.items ≡ sides_of chunks.old.items ++ sides.now) }
{
    if sides.len() <= MOST {
        return add_chunk(alloc, chunks, sides);
    }
    let (first, rest) = sides.split_at(MOST);
    add_chunk(alloc, chunks, first)?;
    add_chunks(alloc, chunks, rest)
}

/// The sides, in chunks.
pub(crate) fn chunks_of(alloc: Global, sides: &[Side]) -> Result<Vec<Chunk>, OutOfMemory>
    requires small { All IsSmall sides.now }
    ensures { IfOk result (λ chunks. sides_of chunks.items ≡ sides.now) }
{
    let mut chunks = Vec::new(alloc);
    add_chunks(alloc, &mut chunks, sides)?;
    Ok(chunks)
}

/// A part of a side is farther than `d` outside the box.
fn is_missed(d: u32, p: &Side, e: Extent) -> bool
    requires near { d ≤ 50 }
    requires part { IsSmall p.now }
    ensures { result ≡ is_missed d p.now e }
{
    (p.x1.max(p.x2) + d < e.left || e.right < p.x1.min(p.x2).saturating_sub(d))
        || (p.y1.max(p.y2) + d < e.top || e.bottom < p.y1.min(p.y2).saturating_sub(d))
}

/// A part of a side is near one of these sides.
fn is_near_one(d: u32, s: &Side, p: &Side, sides: &[Side]) -> bool
    requires near { d ≤ 50 }
    requires own { IsSmall s.now }
    requires small { All IsSmall sides.now }
    requires part { IsSmall p.now }
    ensures { result ≡ list_any (is_near d s.now p.now) sides.now }
{
    match sides {
        [] => false,
        [t, rest @ ..] => is_near(d, s, p, t) || is_near_one(d, s, p, rest),
    }
}

/// And of those of a chunk.
fn is_near_chunk(d: u32, s: &Side, p: &Side, chunk: &Chunk) -> bool
    requires near { d ≤ 50 }
    requires own { IsSmall s.now }
    requires part { IsSmall p.now }
    ensures { result ≡ list_any (is_near d s.now p.now) chunk.now.sides.items }
{
    if is_missed(d, p, chunk.extent) {
        return false;
    }
    is_near_one(d, s, p, &chunk.sides)
}

/// And of those of all chunks. It looks at each chunk's box, and at the sides of those that the part is in or near.
fn is_near_any(d: u32, s: &Side, p: &Side, chunks: &[Chunk]) -> bool
    requires near { d ≤ 50 }
    requires own { IsSmall s.now }
    requires part { IsSmall p.now }
    ensures { result ≡ list_any (is_near d s.now p.now) (sides_of chunks.now) }
{
    match chunks {
        [] => false,
        [c, rest @ ..] => is_near_chunk(d, s, p, c) || is_near_any(d, s, p, rest),
    }
}

/// How many of the first `k` of `n` parts of a side are near one of the sides.
fn near_parts(d: u32, chunks: &[Chunk], s: &Side, n: u64, k: u64) -> u64
    requires near { d ≤ 50 }
    requires own { IsSmall s.now }
    requires few { n ≤ 2 ^ 18 }
    requires first { k ≤ n }
    ensures value { result ≡ near_parts d (sides_of chunks.now) s.now n k }
    ensures size { result ≤ k }
{
    if k == 0 {
        return 0;
    }
    let before = near_parts(d, chunks, s, n, k - 1);
    if is_near_any(d, s, &part_of(n, k - 1, s), chunks) {
        before + 1
    } else {
        before
    }
}

/// How long the parts of a side that are near one of the sides are together, in 10^-4 mm.
fn near_length(d: u32, chunks: &[Chunk], s: &Side) -> u64
    requires positive { 1 ≤ d }
    requires near { d ≤ 50 }
    requires own { IsSmall s.now }
    ensures value { result ≡ near_length d (sides_of chunks.now) s.now }
    ensures size { result ≤ 2 ^ 43 }
{
    let length = length_of(s);
    let parts = length / (200 * u64::from(d)) + 1;
    near_parts(d, chunks, s, parts, parts) * length / parts
}

/// How long those of all sides are together, in 10^-4 mm. For each 2 d of the sides it looks at the boxes of all chunks, and at the
/// sides of those that are near.
pub(crate) fn near_total(d: u32, chunks: &[Chunk], sides: &[Side]) -> u128
    requires positive { 1 ≤ d }
    requires near { d ≤ 50 }
    requires small { All IsSmall sides.now }
    requires chunks { sides_of chunks.now ≡ sides.now }
    ensures { result ≡ near_total d sides.now }
{
    let mut total = 0;
    for side in sides {
        total += u128::from(near_length(d, chunks, side));
    }
    total
}
