// The part that a name `sample:N` stands for: it is made, and nothing is fetched.
ghost use Rattle.std.specs.Prelude.{◌≡◌, ◌<◌, ◌≤◌, length, option_copied, IfOk, IfErr};
ghost use Rattle.geometry.specs.Parts.{part_of};
ghost use Rattle.part_input.specs.Parts.{sample_size, cubes_along, MakesSample, IsOfSize};
ghost use Rattle.part_input.specs.Steps.{GivesInput};

use crate::fault::Fault;
use lattice::Soup;
use sample_part::{SampleError, boxes};
use std::alloc::Global;

/// What stands behind `sample:`, where a name begins so: the size of a sample.
pub fn sample_size(name: &str) -> Option<&str>
    ensures { option_copied result ≡ sample_size name.now }
{
    name.strip_prefix("sample:")
}

/// How many cubes a size asks for along each axis: it is one of the digits 1 to 8.
fn cubes_along(size: &str) -> Option<u32>
    ensures { result ≡ cubes_along size.now }
{
    match size.as_bytes() {
        [digit] if b'1' <= *digit && *digit <= b'8' => Some(u32::from(*digit - b'0')),
        _ => None,
    }
}

/// The sample of this size.
pub fn sample_soup(alloc: Global, size: &str) -> Result<Soup, Fault>
    ensures answer { GivesInput part_of (MakesSample size.now) result }
    ensures of_size { IfErr result (IsOfSize size.now) }
    ensures some_triangle { IfOk result (λ soup. 0 < length (part_of soup).triangles) }
    ensures few_corners { IfOk result (λ soup. length (part_of soup).corners ≤ 60000) }
    ensures few_triangles { IfOk result (λ soup. length (part_of soup).triangles ≤ 20000) }
{
    let Some(cubes) = cubes_along(size) else {
        return Err(Fault::SampleRange);
    };
    match boxes(alloc, cubes) {
        Ok(soup) => Ok(soup),
        Err(SampleError::SampleRange) => Err(Fault::SampleRange),
        Err(SampleError::Memory(_)) => Err(Fault::Memory),
    }
}
