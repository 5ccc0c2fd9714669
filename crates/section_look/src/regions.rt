// The regions of a section: outer loops with the loops in them.
ghost use Rattle.std.specs.Prelude.{◌<◌, List, length, IfOk, OnOk};
ghost use Rattle.lattice.specs.Points.{of_dir};
ghost use Rattle.cut_plane.specs.declared.segments.Segment.{Segment};
ghost use Rattle.section_look.specs.Regions.{IsOuter, IsRegion, AreRegions, lists_of};
ghost use Rattle.section_look.specs.inner.Parts.{AreAddedIfIn, IsAddedIfIn, IsRegionAdded};

use crate::loops::after;
use crate::nesting::{is_in, is_outer};
use cut_plane::Segment;
use exact_frac::OutOfMemory;
use lattice::Dir;
use std::alloc::Global;

/// A region of a section: first its outer loop, and then the loops in it.
#[derive(Drop)]
pub(crate) struct Region {
    pub loops: Vec<Vec<Segment>>,
}

/// Adds the loop, if it is in the outer one.
fn add_if_inside(
    alloc: Global,
    loops: &mut Vec<Vec<Segment>>,
    d: &Dir,
    outer: &[Segment],
    other: &[Segment],
) -> Result<(), OutOfMemory>
    ensures { OnOk result (IsAddedIfIn (of_dir d.now) outer.now other.now (lists_of loops.old.items) (lists_of loops.new.items)) }
{
    if !is_in(d, other, outer) {
        return Ok(());
    }
    loops.push(Vec::from_slice(alloc, other)?)?;
    Ok(())
}

/// Adds those of the others that are in the outer loop.
fn add_inside(
    alloc: Global,
    loops: &mut Vec<Vec<Segment>>,
    d: &Dir,
    outer: &[Segment],
    others: &[Vec<Segment>],
) -> Result<(), OutOfMemory>
    ensures { OnOk result (AreAddedIfIn (of_dir d.now) outer.now (lists_of others.now) (lists_of loops.old.items) (lists_of loops.new.items)) }
{
    for other in others {
        add_if_inside(alloc, loops, d, outer, other)?;
    }
    Ok(())
}

/// The region of the outer loop with this number.
fn region_of(
    alloc: Global,
    d: &Dir,
    loops: &[Vec<Segment>],
    k: usize,
) -> Result<Region, OutOfMemory>
    requires within { k < length loops.now }
    requires outer { (loop : List Segment) × IsOuter (of_dir d.now) (lists_of loops.now) k loop }
    ensures { IfOk result (IsRegion (of_dir d.now) (lists_of loops.now) k) }
{
    let this = loops[k].as_slice();
    let mut kept = Vec::new(alloc);
    kept.push(Vec::from_slice(alloc, this)?)?;
    add_inside(alloc, &mut kept, d, this, &loops[..k])?;
    add_inside(alloc, &mut kept, d, this, after(loops, k))?;
    Ok(Region { loops: kept })
}

/// Adds the region of the loop with this number, if that is an outer one.
fn add_region(
    alloc: Global,
    regions: &mut Vec<Region>,
    d: &Dir,
    loops: &[Vec<Segment>],
    k: usize,
) -> Result<(), OutOfMemory>
    requires { k < length loops.now }
    ensures { OnOk result (IsRegionAdded (of_dir d.now) (lists_of loops.now) k regions.old.items regions.new.items) }
{
    if !is_outer(d, loops, k) {
        return Ok(());
    }
    regions.push(region_of(alloc, d, loops, k)?)?;
    Ok(())
}

/// The regions of the section with these loops, in the order of their outer loops.
///
/// Its time goes with the number of loops times that of all segments.
pub(crate) fn regions_of(
    alloc: Global,
    d: &Dir,
    loops: &[Vec<Segment>],
) -> Result<Vec<Region>, OutOfMemory>
    ensures { IfOk result (λ regions. AreRegions (of_dir d.now) (lists_of loops.now) regions.items) }
{
    let mut regions = Vec::new(alloc);
    for k in 0..loops.len() {
        add_region(alloc, &mut regions, d, loops, k)?;
    }
    Ok(regions)
}
