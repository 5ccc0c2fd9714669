// Triangles that wait to be looked at: at the start all, later those that a flip changed or gave a chance.
ghost use Rattle.std.specs.Prelude.{◌≡◌, ◌⊎◌, ℕ, ◌<◌, ◌≤◌, length, vec_len, IfOk, OnOk, IsNone, IfSome, IsTrue};
ghost use Rattle.flip_slivers.specs.Flips.{IsSideOf};
ghost use Rattle.flip_slivers.specs.inner.Lists.{HasTriAt, IsListed, lists_of, triangles_of};
ghost use Rattle.flip_slivers.specs.inner.Choices.{AreIdle, AreSettled, IsChoice, IsFuller, IsLaid, IsQueue, Waits};

use crate::Bounded;
use crate::choices::{Flip, Scene, flip_at};
use crate::lists::{is_side, is_triangle, listed};
use lattice::Tri;
use std::alloc::{AllocError, Global};

/// For each triangle whether it waits, and the places of those that do, the next one last.
#[derive(Drop)]
pub(crate) struct Queue {
    pub waits: Vec<bool>,
    pub places: Vec<u32>,
}

/// All triangles wait, the first one to be the next.
pub(crate) fn all_waiting(alloc: Global, count: u32) -> Result<Queue, AllocError>
    ensures queue { IfOk result (λ q. IsQueue count q.waits.items q.places.items) }
    ensures all { IfOk result (λ q. (i : ℕ) → i < count → Waits q.waits.items i) }
{
    let mut waits = Vec::new(alloc);
    let mut places = Vec::new(alloc);
    for i in 0..count {
        waits.push(true)?;
        places.push(count - 1 - i)?;
    }
    Ok(Queue { waits, places })
}

/// Lets the triangle at a place wait.
pub(crate) fn wait(queue: &mut Queue, place: u32) -> Result<(), AllocError>
    requires { place < length queue.old.waits.items }
    ensures fuller { OnOk result (IsFuller queue.old.waits.items queue.new.waits.items queue.old.places.items queue.new.places.items) }
    ensures waits { OnOk result (Waits queue.new.waits.items place) }
{
    if queue.waits[place as usize] {
        return Ok(());
    }
    queue.places.push(place)?;
    queue.waits[place as usize] = true;
    Ok(())
}

/// After a flip has taken away the side between two corners, lets wait what that side kept from being flipped: pairs of triangles beside
/// each other whose third corners are these two.
pub(crate) fn wake(
    surface: &[Bounded],
    lists: &[Vec<u32>],
    queue: &mut Queue,
    a: u32,
    b: u32,
) -> Result<(), AllocError>
    requires count { length lists.now ≡ 65536 }
    requires listed { IsListed (triangles_of surface.now) (lists_of lists.now) }
    requires marks { length queue.old.waits.items ≡ length surface.now }
    ensures fuller { OnOk result (IsFuller queue.old.waits.items queue.new.waits.items queue.old.places.items queue.new.places.items) }
    ensures woken { OnOk result ((i j m n : ℕ) → ¬ IsSideOf surface.now a b → ¬ IsSideOf surface.now b a →
        HasTriAt surface.now i m n a → HasTriAt surface.now j n m b → Waits queue.new.waits.items i ⊎ Waits queue.new.waits.items j) }
{
    if is_side(surface, lists, a, b) {
        return Ok(());
    }
    if is_side(surface, lists, b, a) {
        return Ok(());
    }
    if listed(lists, a, a).len() <= listed(lists, b, b).len() {
        wake_around(surface, lists, queue, a, b)?;
        return Ok(());
    }
    wake_around(surface, lists, queue, b, a)?;
    Ok(())
}

/// Lets wait the triangles at the first corner that have a neighbour across the side opposite to it whose third corner is the other one.
fn wake_around(
    surface: &[Bounded],
    lists: &[Vec<u32>],
    queue: &mut Queue,
    corner: u32,
    other: u32,
) -> Result<(), AllocError>
    requires count { length lists.now ≡ 65536 }
    requires listed { IsListed (triangles_of surface.now) (lists_of lists.now) }
    requires marks { length queue.old.waits.items ≡ length surface.now }
    ensures fuller { OnOk result (IsFuller queue.old.waits.items queue.new.waits.items queue.old.places.items queue.new.places.items) }
    ensures woken { OnOk result ((i j m n : ℕ) → HasTriAt surface.now i m n corner → HasTriAt surface.now j n m other → Waits queue.new.waits.items i) }
{
    let places = listed(lists, corner, corner);
    for place in places {
        wake_facing(surface, lists, queue, *place, corner, other)?;
    }
    Ok(())
}

/// Lets wait the triangle at a place if it is such a one.
fn wake_facing(
    surface: &[Bounded],
    lists: &[Vec<u32>],
    queue: &mut Queue,
    place: u32,
    corner: u32,
    other: u32,
) -> Result<(), AllocError>
    requires count { length lists.now ≡ 65536 }
    requires listed { IsListed (triangles_of surface.now) (lists_of lists.now) }
    requires marks { length queue.old.waits.items ≡ length surface.now }
    requires place { place < length surface.now }
    ensures fuller { OnOk result (IsFuller queue.old.waits.items queue.new.waits.items queue.old.places.items queue.new.places.items) }
    ensures woken { OnOk result ((j m n : ℕ) → HasTriAt surface.now place m n corner → HasTriAt surface.now j n m other → Waits queue.new.waits.items place) }
{
    if !faces(surface, lists, place, corner, other) {
        return Ok(());
    }
    wait(queue, place)?;
    Ok(())
}

/// The triangle at a place has the first corner, and across the side opposite to it a neighbour whose third corner is the other one.
fn faces(surface: &[Bounded], lists: &[Vec<u32>], place: u32, corner: u32, other: u32) -> bool
    requires count { length lists.now ≡ 65536 }
    requires listed { IsListed (triangles_of surface.now) (lists_of lists.now) }
    requires place { place < length surface.now }
    ensures { (j m n : ℕ) → HasTriAt surface.now place m n corner → HasTriAt surface.now j n m other → IsTrue result }
{
    let Tri { a, b, c } = surface[place as usize].tri;
    if faces_across(surface, lists, &Tri { a, b, c }, corner, other) {
        return true;
    }
    if faces_across(surface, lists, &Tri { a: b, b: c, c: a }, corner, other) {
        return true;
    }
    faces_across(surface, lists, &Tri { a: c, b: a, c: b }, corner, other)
}

/// The triangle's third corner is the first one, and across its first side is a neighbour whose third corner is the other one.
fn faces_across(surface: &[Bounded], lists: &[Vec<u32>], t: &Tri, corner: u32, other: u32) -> bool
    requires count { length lists.now ≡ 65536 }
    requires listed { IsListed (triangles_of surface.now) (lists_of lists.now) }
    ensures { (j : ℕ) → t.now.c ≡ corner → HasTriAt surface.now j t.now.b t.now.a other → IsTrue result }
{
    if t.c != corner {
        return false;
    }
    is_triangle(surface, lists, t.b, t.a, other)
}

/// The first flip of a triangle that waits, with one that doesn't. Those before it in the queue wait no longer.
pub(crate) fn next_flip(scene: &Scene, queue: &mut Queue) -> Result<Option<Flip>, AllocError>
    requires laid { IsLaid scene.now.corners.now scene.now.surface.now scene.now.measures.now scene.now.lists.now }
    requires most { scene.now.most ≤ 102400 }
    requires queue { IsQueue (length scene.now.surface.now) queue.old.waits.items queue.old.places.items }
    requires idle { AreIdle scene.now.corners.now scene.now.most scene.now.surface.now queue.old.waits.items }
    ensures queue { OnOk result (IsQueue (length scene.now.surface.now) queue.new.waits.items queue.new.places.items) }
    ensures idle { OnOk result (AreIdle scene.now.corners.now scene.now.most scene.now.surface.now queue.new.waits.items) }
    ensures some { IfOk result (λ found. IfSome found (IsChoice scene.now.corners.now scene.now.most scene.now.surface.now)) }
    ensures none { IfOk result (λ found. IsNone found → AreSettled scene.now.corners.now scene.now.most scene.now.surface.now) }
{
    while let Some(place) = queue.places.pop() {
        if let Some(flip) = flip_at(scene, &queue.waits, place) {
            queue.places.push(place)?;
            return Ok(Some(flip));
        }
        queue.waits[place as usize] = false;
    }
    Ok(None)
}
