// The corners of a raw part by their places, and its triangles between them.
ghost use Rattle.std.specs.Prelude.{◌≡◌, ◌+◌, ◌<◌, ◌≤◌, ◌^◌, [], length, map, OnOk, IfOk, IsErrOf};
ghost use Rattle.lattice.specs.Points.{of_corner};
ghost use Rattle.lattice.specs.Triangles.{IsBelow};
ghost use Rattle.weld.specs.declared.welding.WeldError.TheVariants.{Memory};
ghost use Rattle.weld.specs.inner.Numbering.{IsTied, Numbers, NumbersAll, of_place};
ghost use Rattle.weld.specs.Welds.{placed, are_different};

use crate::raw_part::RawPart;
use exact_frac::OutOfMemory;
use indexmap::IndexSet;
use lattice::{Corner, Soup, Tri};
use std::alloc::{AllocError, AllocFailed, Global};
use thiserror::Error;

/// Why a raw part gives no soup.
#[derive(Clone, Copy, PartialEq, Eq, Debug, Error)]
pub enum WeldError {
    /// No triangle has three corners at different places.
    #[error("no triangle is left")]
    Nothing,
    #[error("there is not enough memory")]
    Memory(OutOfMemory),
}

impl From<AllocError> for WeldError {
    ghost from_gives = { λ _ e. e ≡ Memory (record {}) };

    fn from(_: AllocError) -> Self {
        WeldError::Memory(OutOfMemory)
    }
}

impl<T: Drop> From<AllocFailed<T>> for WeldError {
    ghost from_gives = { λ _ e. e ≡ Memory (record {}) };

    fn from(_: AllocFailed<T>) -> Self {
        WeldError::Memory(OutOfMemory)
    }
}

impl RawPart {
    ghost use Rattle.weld.specs.Raw.{seen};
    ghost use Rattle.weld.specs.Welds.{IsWeldOf, proper_of};

    /// The soup of this part, in units: corners at one place are one, and are numbered in the order of their first use; the
    /// triangles with three different places stay in order, and `Nothing` says that there is none. A corner that no such
    /// triangle has is dropped. About linear in the number of triangles: each of their corners is hashed once.
    pub fn weld(self, alloc: Global) -> Result<Soup, WeldError>
        ensures weld { IfOk result (λ s. IsWeldOf (seen self) s.corners.items s.triangles.items) }
        ensures some { IfOk result (λ s. 0 < length s.triangles.items) }
        ensures few_corners { IfOk result (λ s. length s.corners.items ≤ length self.corners.items) }
        ensures few_triangles { IfOk result (λ s. length s.triangles.items ≤ length self.triangles.items) }
        ensures nothing { IsErrOf result WeldError.Nothing → proper_of (seen self) ≡ [] }
    {
        let mut kept = Kept {
            places: IndexSet::new(alloc),
            corners: Vec::new(alloc),
        };
        let mut triangles = Vec::new(alloc);
        for triangle in &self.triangles {
            if are_different(&self.corners, triangle) {
                let numbered = kept.number_all(&self.corners, triangle)?;
                triangles.push(numbered)?;
            }
        }
        if triangles.is_empty() {
            return Err(WeldError::Nothing);
        }
        Ok(Soup {
            corners: kept.corners,
            triangles,
        })
    }
}

/// Where a corner is, in units.
#[derive(Clone, Copy, PartialEq, Eq, Hash, Debug)]
struct UnitPlace {
    x: i32,
    y: i32,
    z: i32,
}

/// The place of a corner.
fn place_of(corner: &Corner) -> UnitPlace
    ensures { of_place result ≡ of_corner corner.now }
{
    UnitPlace {
        x: corner.x,
        y: corner.y,
        z: corner.z,
    }
}

/// The triangle's corners are at three different places.
fn are_different(corners: &[Corner], triangle: &Tri) -> bool
    requires { IsBelow (length corners.now) triangle.now }
    ensures { result ≡ are_different (placed (map of_corner corners.now) triangle.now) }
{
    let a = place_of(&corners[triangle.a as usize]);
    let b = place_of(&corners[triangle.b as usize]);
    let c = place_of(&corners[triangle.c as usize]);
    a != b && b != c && c != a
}

/// The corners that are used so far, in the order of their first use, and their places, which are all different.
#[derive(Drop)]
struct Kept {
    places: IndexSet<UnitPlace>,
    corners: Vec<Corner>,
}

impl Kept {
    /// The number of the corner at this place, which is added where it is new.
    fn number(&mut self, corner: &Corner) -> Result<u32, AllocError>
        requires few { length self.old.corners.items < 2 ^ 32 }
        requires tied { IsTied self.old.places.keys self.old.corners.items }
        ensures tied { OnOk result (IsTied self.new.places.keys self.new.corners.items) }
        ensures numbers { IfOk result (λ n. Numbers (map of_corner self.old.corners.items) (map of_corner self.new.corners.items) (of_corner corner.now) n) }
    {
        let (number, added) = self.places.insert_full(place_of(corner))?;
        if added {
            self.corners.push(*corner)?;
        }
        Ok(number as u32)
    }

    /// The triangle by the numbers of its corners here.
    fn number_all(&mut self, corners: &[Corner], triangle: &Tri) -> Result<Tri, AllocError>
        requires few { length self.old.corners.items + 3 ≤ 2 ^ 32 }
        requires in_range { IsBelow (length corners.now) triangle.now }
        requires tied { IsTied self.old.places.keys self.old.corners.items }
        ensures tied { OnOk result (IsTied self.new.places.keys self.new.corners.items) }
        ensures numbers { IfOk result (λ t. NumbersAll (map of_corner self.old.corners.items) (map of_corner self.new.corners.items) (placed (map of_corner corners.now) triangle.now) t) }
    {
        let a = self.number(&corners[triangle.a as usize])?;
        let b = self.number(&corners[triangle.b as usize])?;
        let c = self.number(&corners[triangle.c as usize])?;
        Ok(Tri { a, b, c })
    }
}
