// The twins and the edges of a part, if it is sound.
ghost use Rattle.std.specs.Prelude.{◌≡◌, ◌-◌, ◌<◌, ◌≤◌, ◌^◌, length, OnOk, IfOk, IfErr};
ghost use Rattle.geometry.specs.Parts.{part_of, IsClosed, HasNoDouble};
ghost use Rattle.solid_mesh.specs.inner.Halves.{AreTwins, lower_halves_of};
ghost use Rattle.solid_mesh.specs.Meetings.{HaveCommonX, HaveCommonBox, IsAtMostPairs};
ghost use Rattle.solid_mesh.specs.inner.Meetings.{HasNoMeeting};
ghost use Rattle.solid_mesh.specs.Solids.{IsRefusedFor};

use crate::doubles::find_double;
use crate::faults::{MeshError, MeshFault};
use crate::flats::find_flat;
use crate::pairs::PairMeter;
use crate::search::find_meeting;
use crate::sides::{find_lower, find_twins, index_sides};
use lattice::Soup;
use std::alloc::Global;

/// For each half, the half that goes back, if the part is closed and no two triangles have the same three corners.
pub(crate) fn pair_sides(alloc: Global, soup: &Soup) -> Result<Vec<u32>, MeshError>
    requires few { length (part_of soup.now).triangles ≤ 20000 }
    ensures twins { IfOk result (λ twins. AreTwins (part_of soup.now).triangles twins.items) }
    ensures closed { OnOk result (IsClosed (part_of soup.now)) }
    ensures no_double { OnOk result (HasNoDouble (part_of soup.now)) }
    ensures refused { IfErr result (IsRefusedFor (part_of soup.now)) }
{
    if let Some(tri) = find_flat(soup) {
        return Err(MeshError::Mesh(MeshFault::Flat(tri)));
    }
    let sides = index_sides(alloc, soup)?;
    let twins = find_twins(alloc, soup, &sides)?;
    if let Some((first, second)) = find_double(soup, &twins) {
        return Err(MeshError::Mesh(MeshFault::Double(first, second)));
    }
    Ok(twins)
}

/// The lower halves, which number the edges, if no edge meets a triangle in another point than a shared corner.
pub(crate) fn find_edges(
    alloc: Global,
    soup: &Soup,
    twins: &[u32],
    meter: &mut PairMeter,
) -> Result<Vec<u32>, MeshError>
    requires few { length (part_of soup.now).triangles ≤ 20000 }
    requires closed { IsClosed (part_of soup.now) }
    requires no_double { HasNoDouble (part_of soup.now) }
    requires twins { AreTwins (part_of soup.now).triangles twins.now }
    requires old_boxes { meter.old.boxes < 2 ^ 63 }
    requires old_pairs { meter.old.pairs < 2 ^ 63 }
    ensures halves { IfOk result (λ halves. halves.items ≡ lower_halves_of twins.now) }
    ensures apart { OnOk result (HasNoMeeting (part_of soup.now)) }
    ensures refused { IfErr result (IsRefusedFor (part_of soup.now)) }
    ensures more_boxes { meter.old.boxes ≤ meter.new.boxes }
    ensures more_pairs { meter.old.pairs ≤ meter.new.pairs }
    ensures boxes { IsAtMostPairs (HaveCommonX (part_of soup.now)) (lower_halves_of twins.now) (meter.new.boxes - meter.old.boxes) }
    ensures pairs { IsAtMostPairs (HaveCommonBox (part_of soup.now)) (lower_halves_of twins.now) (meter.new.pairs - meter.old.pairs) }
{
    let halves = find_lower(alloc, twins)?;
    let found = find_meeting(alloc, soup, &halves)?;
    meter.boxes += found.meter.boxes;
    meter.pairs += found.meter.pairs;
    match found.first {
        None => Ok(halves),
        Some(m) => Err(MeshError::Mesh(MeshFault::Meet(m.edge, m.tri))),
    }
}
