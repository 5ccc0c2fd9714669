// Mends a part by flips of its slivers.
ghost use Rattle.std.specs.Prelude.{◌≡◌, ℕ, ◌+◌, ◌*◌, ◌<◌, ◌≤◌, length, IfOk, IfErr};
ghost use Rattle.geometry.specs.Parts.{part_of};
ghost use Rattle.geometry.specs.Sound.{IsSound};
ghost use Rattle.mend_core.specs.Mending.{IsOfMending, Mends};
ghost use Rattle.mend_core.specs.Seen.{made_seen};
ghost use Rattle.mend_core.specs.inner.Repairs.{ChecksRepair, Repairs, repair_of};
ghost use Rattle.part_input.specs.Steps.{GivesInput};

use crate::made::{Mended, Report};
use flip_slivers::{Flipped, flip_slivers, without_pairs};
use lattice::Soup;
use part_input::Fault;
use solid_mesh::{MeshError, Solid};
use std::alloc::Global;

/// A part without pairs of triangles, after flips, which isn't checked yet.
#[derive(Drop)]
struct Repair {
    soup: Soup,
    flips: u64,
    moved: u32,
    pairs: u32,
}

/// How many pairs went where so many triangles of so many are left.
fn pairs_of(given: usize, left: usize) -> u32
    requires fewer { left ≤ given }
    requires few { given ≤ 20000 }
    ensures { (pairs : ℕ) → given ≡ left + 2 * pairs → result ≡ pairs }
{
    ((given - left) / 2) as u32
}

/// The part without triangles that come in pairs, and its slivers flipped.
fn repaired(alloc: Global, soup: Soup, limit: u32) -> Result<Repair, Fault>
    requires few_corners { length (part_of soup).corners ≤ 60000 }
    requires few_triangles { length (part_of soup).triangles ≤ 20000 }
    requires limit { limit ≤ 100 }
    ensures answer { GivesInput repair_of (Repairs limit (part_of soup)) result }
    ensures of_mending { IfErr result IsOfMending }
    ensures some_triangle { IfOk result (λ r. 0 < length (part_of r.soup).triangles) }
    ensures few_corners { IfOk result (λ r. length (part_of r.soup).corners ≤ 60000) }
    ensures few_triangles { IfOk result (λ r. length (part_of r.soup).triangles ≤ 20000) }
{
    let count = soup.corners.len() as u32;
    let left = match without_pairs(alloc, &soup.triangles, count) {
        Ok(left) => left,
        Err(_) => return Err(Fault::Memory),
    };
    if left.is_empty() {
        return Err(Fault::Nothing);
    }
    let pairs = pairs_of(soup.triangles.len(), left.len());
    let flipped = match flip_slivers(alloc, &soup.corners, &left, limit) {
        Ok(flipped) => flipped,
        Err(_) => return Err(Fault::Memory),
    };
    let Flipped {
        triangles,
        flips,
        moved,
    } = flipped;
    let Soup {
        corners,
        triangles: _,
    } = soup;
    Ok(Repair {
        soup: Soup { corners, triangles },
        flips,
        moved,
        pairs,
    })
}

/// The sound solid of a part after flips.
fn checked(alloc: Global, repair: Repair) -> Result<Mended, Fault>
    requires some_triangle { 0 < length (part_of repair.soup).triangles }
    requires few_corners { length (part_of repair.soup).corners ≤ 60000 }
    requires few_triangles { length (part_of repair.soup).triangles ≤ 20000 }
    ensures answer { GivesInput made_seen (ChecksRepair (repair_of repair)) result }
    ensures of_mending { IfErr result IsOfMending }
{
    let Repair {
        soup,
        flips,
        moved,
        pairs,
    } = repair;
    match Solid::check(alloc, soup) {
        Ok(solid) => Ok(Mended {
            solid,
            report: Report::Mended {
                flips,
                moved,
                pairs,
            },
        }),
        Err(MeshError::Mesh(fault)) => Err(Fault::Mesh(fault)),
        Err(MeshError::Memory(_)) => Err(Fault::Memory),
    }
}

/// The sound solid of a part that isn't sound.
fn mended_by_flips(alloc: Global, soup: Soup, limit: u32) -> Result<Mended, Fault>
    requires unsound { IsSound (part_of soup) → ⊥ }
    requires few_corners { length (part_of soup).corners ≤ 60000 }
    requires few_triangles { length (part_of soup).triangles ≤ 20000 }
    requires limit { limit ≤ 100 }
    ensures answer { GivesInput made_seen (Mends limit (part_of soup)) result }
    ensures of_mending { IfErr result IsOfMending }
{
    match repaired(alloc, soup, limit) {
        Ok(repair) => checked(alloc, repair),
        Err(fault) => Err(fault),
    }
}

/// The part itself where its surface is sound. Else what is left of it without the triangles that come in pairs on the same corners,
/// turned opposite, once slivers are flipped: these have a height of at most 2 units, and no flip moves a point by more than `limit`
/// units. It is refused where no triangle is left, and for the fault of the surface that is left where that isn't sound.
///
/// It takes the time of two checks and of the flips, and memory for a copy of the part.
pub fn mended(alloc: Global, soup: Soup, limit: u32) -> Result<Mended, Fault>
    requires some_triangle { 0 < length (part_of soup).triangles }
    requires few_corners { length (part_of soup).corners ≤ 60000 }
    requires few_triangles { length (part_of soup).triangles ≤ 20000 }
    requires limit { limit ≤ 100 }
    ensures answer { GivesInput made_seen (Mends limit (part_of soup)) result }
    ensures of_mending { IfErr result IsOfMending }
{
    let kept = match soup.copy(alloc) {
        Ok(kept) => kept,
        Err(_) => return Err(Fault::Memory),
    };
    match Solid::check(alloc, soup) {
        Ok(solid) => Ok(Mended {
            solid,
            report: Report::Sound,
        }),
        Err(MeshError::Mesh(_)) => mended_by_flips(alloc, kept, limit),
        Err(MeshError::Memory(_)) => Err(Fault::Memory),
    }
}
