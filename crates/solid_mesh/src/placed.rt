// The triangles of a part in an order in which those that are near one another in space stand near one another.
ghost use Rattle.std.specs.Prelude.{◌≡◌, ◌<◌, ◌≤◌, length, IfOk};
ghost use Rattle.std.specs.List.Sorted.{IsPermutation};
ghost use Rattle.geometry.specs.Parts.{part_of, IsCornerOf};
ghost use Rattle.solid_mesh.specs.inner.Trees.{IsRim, IsPlaced, AreAllPlaced};

use crate::bounds::{Bounds, edge_bounds, triangle_bounds};
use crate::fans::{count_triangles, greatest_corner};
use lattice::{Corner, Soup, Tri};
use meeting::Range;
use std::alloc::{AllocError, Global};

/// As many triangles around a corner are a large fan.
const LARGE_FAN: u32 = 64;

/// A triangle, by its number, with a code for its place in the order, its bounds, that of its corners with the most triangles, by its
/// number and its place, and the bounds of the other two.
#[derive(Clone, Copy, Debug)]
pub(crate) struct Placed {
    pub code: u128,
    pub tri: u32,
    pub corner: u32,
    pub at: Corner,
    pub bounds: Bounds,
    pub rim: Bounds,
}

/// The triangles, those of large fans fan by fan behind all others, in the order of the Morton codes of their middles (Morton 1966).
/// Takes the time of sorting.
pub(crate) fn place_triangles(alloc: Global, soup: &Soup) -> Result<Vec<Placed>, AllocError>
    requires few { length (part_of soup.now).triangles ≤ 20000 }
    ensures { IfOk result (λ v. AreAllPlaced (part_of soup.now) v.items) }
{
    let counts = count_triangles(alloc, soup)?;
    let mut placed = Vec::new(alloc);
    for tri in 0..soup.triangles.len() as u32 {
        placed.push(place(soup, &counts, tri))?;
    }
    in_order(placed)
}

/// The same in the order of their codes.
fn in_order(placed: Vec<Placed>) -> Result<Vec<Placed>, AllocError>
    ensures same { IfOk result (λ v. IsPermutation placed.items v.items) }
{
    let mut sorted = placed;
    sorted.sort_by_key(|x| x.code)?;
    Ok(sorted)
}

/// A triangle, by the counts of triangles at each corner.
fn place(soup: &Soup, counts: &[u32], tri: u32) -> Placed
    requires tri { tri < length (part_of soup.now).triangles }
    requires counts { length counts.now ≡ length (part_of soup.now).corners }
    ensures number { result.tri ≡ tri }
    ensures placed { IsPlaced (part_of soup.now) result }
{
    let triangle = soup.triangles[tri as usize];
    let a = &soup.corners[triangle.a as usize];
    let b = &soup.corners[triangle.b as usize];
    let c = &soup.corners[triangle.c as usize];
    let bounds = triangle_bounds(a, b, c);
    let corner = greatest_corner(counts, &triangle);
    let rim = rim_of(&triangle, corner, a, b, c);
    Placed {
        code: u128::from(fan_of(counts, corner)) << 64 | u128::from(code_of(&bounds)),
        tri,
        corner,
        at: soup.corners[corner as usize],
        bounds,
        rim,
    }
}

/// The number of a fan around a corner, or 0 where it is small: near one another in space are the triangles of a small one anyway.
fn fan_of(counts: &[u32], corner: u32) -> u64
    requires { corner < length counts.now }
{
    if counts[corner as usize] < LARGE_FAN {
        return 0;
    }
    u64::from(corner) + 1
}

/// The bounds of a triangle's corners `a`, `b` and `c` but that with this number.
fn rim_of(triangle: &Tri, corner: u32, a: &Corner, b: &Corner, c: &Corner) -> Bounds
    requires { IsCornerOf triangle.now corner }
    ensures { IsRim triangle.now corner a.now b.now c.now result }
{
    if triangle.a == corner {
        return edge_bounds(b, c);
    }
    if triangle.b == corner {
        return edge_bounds(c, a);
    }
    edge_bounds(a, b)
}

/// The Morton code of the middle: the bits of its three coordinates in turn, the highest first.
fn code_of(bounds: &Bounds) -> u64 {
    let x = spread(middle_of(&bounds.x));
    let y = spread(middle_of(&bounds.y));
    let z = spread(middle_of(&bounds.z));
    x | y << 1 | z << 2
}

/// How far the middle of a range is above the least coordinate of a corner, rounded down, in 21 bits.
fn middle_of(range: &Range) -> u64 {
    let twice = (range.from as i64 + range.to as i64 + 2097152).clamp(0, 4194303);
    twice as u64 / 2
}

/// The lowest 21 bits of a number, each with two zeros above it.
fn spread(number: u64) -> u64 {
    let x = number & 0x1f_ffff;
    let x = (x | x << 32) & 0x001f_0000_0000_ffff;
    let x = (x | x << 16) & 0x001f_0000_ff00_00ff;
    let x = (x | x << 8) & 0x100f_00f0_0f00_f00f;
    let x = (x | x << 4) & 0x10c3_0c30_c30c_30c3;
    (x | x << 2) & 0x1249_2492_4924_9249
}
