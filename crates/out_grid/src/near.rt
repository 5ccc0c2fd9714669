// The triangles near each corner: those in its cell, in a grid of boxes.
ghost use Rattle.std.specs.Prelude.{◌≡◌, ℕ, ◌+◌, ◌-◌, ◌*◌, ◌<◌, ◌≤◌, ◌^◌, List, [], Contains, Some, length, slice_get, slice_index_or, IfOk, IsTrue, OnOk};
ghost use Rattle.std.specs.List.Sorted.{IsNonDecreasing};
ghost use Rattle.lattice.specs.Points.{of_dir};
ghost use Rattle.solid_mesh.specs.Solids.{solid_part};
ghost use Rattle.solid_mesh.specs.Stars.{lists_of};
ghost use Rattle.span_count.specs.Finders.{IsNext};

use crate::boxes::put_triangles;
use crate::halving::cells_for;
use crate::lists::empty_lists;
use crate::meter::NearMeter;
use exact_frac::OutOfMemory;
use lattice::Dir;
use solid_mesh::Solid;
use std::alloc::Global;

/// The triangles of a view, each in the cells that the box of its U and V meets, and the cell of each corner.
#[derive(Debug, Drop)]
pub struct NearTriangles {
    cells: Vec<Vec<u32>>,
    corner_cells: Vec<u32>,
    ghost within: { (number cell : ℕ) → slice_get corner_cells.items number ≡ Some cell → cell < length cells.items },
    ghost ascending: { (number cell : ℕ) → slice_get corner_cells.items number ≡ Some cell → IsNonDecreasing (slice_index_or (lists_of cells.items) cell []) },
}

impl NearTriangles {
    ghost use Rattle.out_grid.specs.Near.{near_list, near_bound, AreNear};

    /// Those of a solid for this direction: near a corner is each that is not seen strictly to one side of it, and maybe others are.
    /// No test is made.
    ///
    /// Cost: at most nine steps for each corner and eighteen for each triangle, also where memory runs out: the cells are made larger at
    /// most eight times, each time going over the corners and the triangles, and there are no more cells than triangles, with at most
    /// eight times as many places. Beside them it goes three times over the corners. Memory is taken for the corners, the cells and
    /// the places.
    pub fn new(
        alloc: Global,
        solid: &Solid,
        d: &Dir,
        meter: &mut NearMeter,
    ) -> Result<NearTriangles, OutOfMemory>
        requires room { meter.old.steps < 2 ^ 62 }
        ensures near { IfOk result (AreNear (of_dir d.now) (solid_part solid.now)) }
        ensures counted { meter.new.steps ≤ meter.old.steps + near_bound (solid_part solid.now) }
        ensures counted_each { OnOk result (meter.old.steps + (length (solid_part solid.now).corners + 2 * length (solid_part solid.now).triangles) ≤ meter.new.steps) }
    {
        let corners = cells_for(alloc, solid, d, meter)?;
        let columns = corners.columns;
        let mut cells = empty_lists(alloc, columns * columns)?;
        meter.steps += u64::from(columns * columns);
        put_triangles(solid, columns, &corners.cells, &mut cells, meter)?;
        Ok(NearTriangles {
            cells,
            corner_cells: corners.cells,
        })
    }

    /// The least triangle near a corner from this number on, or none. Looks at the place of the corner's list that the number of those
    /// told before says, and else searches it by halves. Takes no memory.
    pub fn next_near(&self, corner: u32, told: u32, from: u32) -> Option<u32>
        ensures { IsNext (Contains (near_list self.now corner)) from result }
    {
        let Some(cell) = at(&self.corner_cells, corner as usize) else {
            return None;
        };
        first_from(&self.cells[cell as usize], told as usize, from)
    }
}

/// The first of ascending numbers that is not below this one; looked for at a place first.
fn first_from(numbers: &[u32], place: usize, from: u32) -> Option<u32>
    requires { IsNonDecreasing numbers.now }
    ensures { IsNext (Contains numbers.now) from result }
{
    if is_first_from(numbers, place, from) {
        return at(numbers, place);
    }
    at(numbers, numbers.partition_point(|x| *x < from))
}

/// The number at this place is not below this one, and that before it is, if there is one.
fn is_first_from(numbers: &[u32], place: usize, from: u32) -> bool
    ensures within { IsTrue result → place < length numbers.now }
    ensures reached { IsTrue result → from ≤ slice_index_or numbers.now place 0 }
    ensures before { IsTrue result → 0 < place → slice_index_or numbers.now (place - 1) 0 < from }
{
    if place >= numbers.len() || numbers[place] < from {
        return false;
    }
    if place == 0 {
        return true;
    }
    numbers[place - 1] < from
}

/// The number at a place, if there is one.
fn at(numbers: &[u32], place: usize) -> Option<u32>
    ensures { result ≡ slice_get numbers.now place }
{
    numbers.get(place).copied()
}
