// The whole sample, cube after cube.
ghost use Rattle.std.specs.Prelude.{◌≡◌, ◌<◌, ◌≤◌, ◌*◌, ◌↔◌, map, IfOk};
ghost use Rattle.lattice.specs.Points.{of_corner};
ghost use Rattle.sample_part.specs.Boxes.{corners_of, triangles_of, IsOutOfRange};
ghost use Rattle.sample_part.specs.declared.errors.SampleError.TheVariants.{SampleRange};

use crate::cubes::Cube;
use crate::errors::SampleError;
use crate::faces::triangles;
use exact_frac::OutOfMemory;
use lattice::{Corner, Soup, Tri};
use std::alloc::Global;

/// A large sample: `n` by `n` by `n` cubes of 10,000 units a side, whose least corners are 20,000 units apart along each
/// axis, the first at (0, 0, 0). Cubes come by x, then by y, then by z. Corners are numbered in the order of their first use
/// over the triangles. An `n` outside 1 to 8 is `SampleRange`.
///
/// Takes time and memory that grow with the number of cubes.
pub fn boxes(alloc: Global, n: u32) -> Result<Soup, SampleError>
    ensures range { (result ≡ Err SampleRange) ↔ IsOutOfRange n }
    ensures corners { IfOk result (λ soup. map of_corner soup.corners.items ≡ corners_of n) }
    ensures triangles { IfOk result (λ soup. soup.triangles.items ≡ triangles_of n) }
{
    if n < 1 || n > 8 {
        return Err(SampleError::SampleRange);
    }
    match soup(alloc, n) {
        Ok(soup) => Ok(soup),
        Err(error) => Err(SampleError::Memory(error)),
    }
}

/// The sample, where `n` is in range.
fn soup(alloc: Global, n: u32) -> Result<Soup, OutOfMemory>
    requires least { 0 < n }
    requires greatest { n ≤ 8 }
    ensures corners { IfOk result (λ soup. map of_corner soup.corners.items ≡ corners_of n) }
    ensures triangles { IfOk result (λ soup. soup.triangles.items ≡ triangles_of n) }
{
    let corners = all_corners(alloc, n)?;
    let triangles = all_triangles(alloc, n)?;
    Ok(Soup { corners, triangles })
}

/// How many cubes there are.
fn count(n: u32) -> u32
    requires { n ≤ 8 }
    ensures value { result ≡ n * n * n }
    ensures size { result ≤ 512 }
{
    n * n * n
}

/// The corners of all cubes.
fn all_corners(alloc: Global, n: u32) -> Result<Vec<Corner>, OutOfMemory>
    requires least { 0 < n }
    requires greatest { n ≤ 8 }
    ensures { IfOk result (λ corners. map of_corner corners.items ≡ corners_of n) }
{
    let mut corners = Vec::new(alloc);
    for number in 0..count(n) {
        corners.extend_from_slice(&Cube::numbered(n, number).corners())?;
    }
    Ok(corners)
}

/// The triangles of all cubes.
fn all_triangles(alloc: Global, n: u32) -> Result<Vec<Tri>, OutOfMemory>
    requires { n ≤ 8 }
    ensures { IfOk result (λ all. all.items ≡ triangles_of n) }
{
    let mut all = Vec::new(alloc);
    for number in 0..count(n) {
        all.extend_from_slice(&triangles(number))?;
    }
    Ok(all)
}
