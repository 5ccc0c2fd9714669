// Flips that are made, one after the other.
ghost use Rattle.std.specs.Prelude.{◌≡◌, ℕ, ◌<◌, ◌≤◌, length, slice_set, true, false, OnOk, IfOk};
ghost use Rattle.lattice.specs.Triangles.{IsBelow};
ghost use Rattle.flip_slivers.specs.Flips.{AreFlips};
ghost use Rattle.flip_slivers.specs.inner.Choices.{IsChoice, IsLaid, IsReady, AreSettled, flipped};

use crate::Bounded;
use crate::choices::{Flip, Scene};
use crate::lists::{add_all, take_out_all};
use crate::measures::{Measure, measure_of};
use crate::queue::{Queue, next_flip, wait, wake};
use lattice::{Corner, Tri};
use std::alloc::AllocError;

/// The triangles with their bounds, what is measured of them, and their lists.
#[derive(Drop)]
pub(crate) struct Mesh {
    pub surface: Vec<Bounded>,
    pub measures: Vec<Measure>,
    pub lists: Vec<Vec<u32>>,
}

/// Puts another triangle at a place.
fn put(corners: &[Corner], mesh: &mut Mesh, place: u32, new: Bounded) -> Result<(), AllocError>
    requires laid { IsLaid corners.now mesh.old.surface.items mesh.old.measures.items mesh.old.lists.items }
    requires place { place < length mesh.old.surface.items }
    requires below { IsBelow (length corners.now) new.tri }
    ensures put { OnOk result (mesh.new.surface.items ≡ slice_set mesh.old.surface.items place new) }
    ensures laid { OnOk result (IsLaid corners.now mesh.new.surface.items mesh.new.measures.items mesh.new.lists.items) }
{
    let old = mesh.surface[place as usize].tri;
    take_out_all(&mut mesh.lists, &old, place);
    add_all(&mut mesh.lists, &new.tri, place)?;
    mesh.measures[place as usize] = measure_of(corners, &new.tri);
    mesh.surface[place as usize] = new;
    Ok(())
}

/// Makes a flip.
fn make(corners: &[Corner], mesh: &mut Mesh, most: u32, flip: &Flip) -> Result<(), AllocError>
    requires laid { IsLaid corners.now mesh.old.surface.items mesh.old.measures.items mesh.old.lists.items }
    requires choice { IsChoice corners.now most mesh.old.surface.items flip.now }
    ensures made { OnOk result (mesh.new.surface.items ≡ flipped mesh.old.surface.items flip.now) }
    ensures laid { OnOk result (IsLaid corners.now mesh.new.surface.items mesh.new.measures.items mesh.new.lists.items) }
{
    let Flip {
        a,
        b,
        c,
        d,
        bound,
        ..
    } = *flip;
    let first = Bounded {
        tri: Tri { a, b: d, c },
        bound,
    };
    let second = Bounded {
        tri: Tri { a: d, b, c },
        bound,
    };
    put(corners, mesh, flip.sliver, first)?;
    put(corners, mesh, flip.neighbour, second)
}

/// Makes the next flip, if there is one, and lets wait its two triangles, and those that the side in its place kept from being flipped.
fn step(
    corners: &[Corner],
    mesh: &mut Mesh,
    queue: &mut Queue,
    most: u32,
) -> Result<bool, AllocError>
    requires ready { IsReady corners.now most mesh.old.surface.items mesh.old.measures.items mesh.old.lists.items queue.old.waits.items queue.old.places.items }
    requires most { most ≤ 102400 }
    ensures made { IfOk result (λ made. made ≡ true → (f : Flip) × IsChoice corners.now most mesh.old.surface.items f × (mesh.new.surface.items ≡ flipped mesh.old.surface.items f)) }
    ensures none { IfOk result (λ made. made ≡ false → AreSettled corners.now most mesh.new.surface.items × (mesh.new.surface.items ≡ mesh.old.surface.items)) }
    ensures ready { OnOk result (IsReady corners.now most mesh.new.surface.items mesh.new.measures.items mesh.new.lists.items queue.new.waits.items queue.new.places.items) }
{
    let scene = Scene {
        corners,
        surface: &mesh.surface,
        measures: &mesh.measures,
        lists: &mesh.lists,
        most,
    };
    let Some(flip) = next_flip(&scene, queue)? else {
        return Ok(false);
    };
    make(corners, mesh, most, &flip)?;
    wait(queue, flip.neighbour)?;
    wait(queue, flip.sliver)?;
    wake(&mesh.surface, &mesh.lists, queue, flip.a, flip.b)?;
    Ok(true)
}

/// Makes flips until none is left, and tells how many. There are at most 102401 for each triangle: each takes at least 1 of what the
/// triangles have left of the limit, or leaves a flat triangle less.
pub(crate) fn flip_all(
    corners: &[Corner],
    mesh: &mut Mesh,
    queue: &mut Queue,
    most: u32,
) -> Result<u64, AllocError>
    requires few { length mesh.old.surface.items ≤ 20000 }
    requires ready { IsReady corners.now most mesh.old.surface.items mesh.old.measures.items mesh.old.lists.items queue.old.waits.items queue.old.places.items }
    requires most { most ≤ 102400 }
    ensures flips { IfOk result (λ flips. AreFlips corners.now most flips mesh.old.surface.items mesh.new.surface.items) }
    ensures settled { OnOk result (AreSettled corners.now most mesh.new.surface.items) }
{
    let mut flips = 0;
    while step(corners, mesh, queue, most)? {
        flips += 1;
    }
    Ok(flips)
}
