// The grid and its lists.
ghost use Rattle.std.specs.Prelude.{◌≡◌, ◌≢◌, ◌⊎◌, ◌↔◌, ℕ, ◌+◌, ◌*◌, ◌<◌, ◌≤◌, ◌^◌, List, [], ◌∷◌, ◌++◌, All, Contains, length, slice_get, vec_len, OnOk, OnErr, IfOk};
ghost use Rattle.lattice.specs.Points.{of_dir};
ghost use Rattle.edge_pick.specs.Picked.{IsPicked};
ghost use Rattle.solid_mesh.specs.Solids.{solid_part, edge_halves};
ghost use Rattle.cross_find.specs.Sights.{SightState};
ghost use Rattle.span_count.specs.Finders.{IsFinder};
ghost use Rattle.edge_pick.specs.declared.Picked.{Picked};

use crate::corners::corner_cells;
use crate::listing::lists_along;
use crate::lists::{empty_lists, number_at, put_in};
use crate::meter::{CellMeter, NearMeter};
use crate::near::NearTriangles;
use crate::places::raster_over;
use crate::putting::put_outlines;
use edge_pick::Picked;
use exact_frac::OutOfMemory;
use lattice::Dir;
use solid_mesh::Solid;
use span_count::Finder;
use std::alloc::Global;

/// The outlines of a view in a grid of cells, from 1 to 256 columns and rows as many, and its triangles in another.
#[derive(Debug, Drop)]
pub struct GridOutlines {
    columns: u32,
    cells: Vec<Vec<u32>>,
    corner_cells: Vec<u32>,
    lists: Vec<Vec<u32>>,
    triangles: NearTriangles,
    ghost few: { columns ≤ 256 },
    ghost full: { vec_len cells ≡ columns * columns },
}

impl GridOutlines {
    ghost use Rattle.out_grid.specs.Bounds.{IsCellBound};
    ghost use Rattle.out_grid.specs.Grids.{cell_list, along_list, over_list, is_listed_near, IsCornerIn, IsGridOf};

    /// The grid of what is picked of a solid for this direction. Each cell has the outlines with a point in it; along a drawn edge
    /// those are listed that have a point in a cell in which the edge has one, each once, and along others none; over a corner
    /// those of its cell. Which triangles are near a corner is told by `NearTriangles`, which it makes first, with a meter of its own.
    ///
    /// Cost: it counts at most `cell_bound` cells, also where memory runs out; time and memory grow with those and with the lists,
    /// linearly with the corners, and by what `NearTriangles::new` takes.
    pub fn new(
        alloc: Global,
        solid: &Solid,
        d: &Dir,
        picked: &Picked,
        columns: u32,
        meter: &mut CellMeter,
    ) -> Result<GridOutlines, OutOfMemory>
        requires some { 1 ≤ columns }
        requires few { columns ≤ 256 }
        requires picked { (fraction : ℕ) × IsPicked (of_dir d.now) fraction (solid_part solid.now) (edge_halves solid.now) picked.now }
        requires room { meter.old.cells < 2 ^ 62 }
        ensures grid { IfOk result (IsGridOf (of_dir d.now) (solid_part solid.now) (edge_halves solid.now) picked.now columns) }
        ensures law { IfOk result (λ g. (tests : ℕ) → IsFinder (record { part = solid_part solid.now; halves = edge_halves solid.now; direction = of_dir d.now; tests = tests })
            picked.now (along_list g) (over_list g) (is_listed_near g)) }
        ensures counted_each { OnOk result (meter.old.cells + (length picked.now.outlines.items + length picked.now.drawn.items) ≤ meter.new.cells) }
        ensures counted_on { meter.old.cells ≤ meter.new.cells }
        ensures counted { (bound : ℕ) → IsCellBound (of_dir d.now) (solid_part solid.now) (edge_halves solid.now) picked.now columns bound →
            meter.new.cells ≤ meter.old.cells + bound }
    {
        let mut near = NearMeter { steps: 0 };
        let triangles = NearTriangles::new(alloc, solid, d, &mut near)?;
        let raster = raster_over(solid, d, columns);
        let corner_cells = corner_cells(alloc, solid, d, &raster, columns)?;
        let mut cells = empty_lists(alloc, columns * columns)?;
        put_outlines(
            solid,
            d,
            &raster,
            columns,
            &picked.outlines,
            &mut cells,
            meter,
        )?;
        let lists = lists_along(alloc, solid, d, &raster, columns, picked, &cells, meter)?;
        Ok(GridOutlines {
            columns,
            cells,
            corner_cells,
            lists,
            triangles,
        })
    }

    /// Puts an outline last into a cell that does not have it. Where memory runs out, nothing changes. It counts one cell. No list
    /// along an edge changes; over a corner of that cell the outline is then listed last.
    pub fn put(
        &mut self,
        column: u32,
        row: u32,
        outline: u32,
        meter: &mut CellMeter,
    ) -> Result<(), OutOfMemory>
        requires column { column < self.old.columns }
        requires row { row < self.old.columns }
        requires not_there { ¬ Contains (cell_list self.old column row) outline }
        requires room { meter.old.cells + 1 < 2 ^ 64 }
        ensures columns { self.new.columns ≡ self.old.columns }
        ensures put { OnOk result (cell_list self.new column row ≡ cell_list self.old column row ++ outline ∷ []) }
        ensures others { OnOk result ((c r : ℕ) → c < self.old.columns → r < self.old.columns → (c ≢ column) ⊎ (r ≢ row) → cell_list self.new c r ≡ cell_list self.old c r) }
        ensures along { (edge : ℕ) → along_list self.new edge ≡ along_list self.old edge }
        ensures corners { (corner c r : ℕ) → IsCornerIn self.new corner c r ↔ IsCornerIn self.old corner c r }
        ensures over { OnOk result ((corner : ℕ) → IsCornerIn self.old corner column row → over_list self.new corner ≡ over_list self.old corner ++ outline ∷ []) }
        ensures over_others { OnOk result ((corner : ℕ) → (¬ IsCornerIn self.old corner column row) → over_list self.new corner ≡ over_list self.old corner) }
        ensures law { (x : SightState) (p : Picked) → IsFinder x p (along_list self.old) (over_list self.old) (is_listed_near self.old) → Contains p.outlines.items outline →
            IsFinder x p (along_list self.new) (over_list self.new) (is_listed_near self.new) }
        ensures unchanged { OnErr result ((c r : ℕ) → cell_list self.new c r ≡ cell_list self.old c r) }
        ensures unchanged_over { OnErr result ((corner : ℕ) → over_list self.new corner ≡ over_list self.old corner) }
        ensures counted { meter.new.cells ≡ meter.old.cells + 1 }
    {
        put_in(&mut self.cells, column * self.columns + row, outline, meter)
    }

    /// The outlines of a cell. It counts one cell.
    pub fn cell(&self, column: u32, row: u32, meter: &mut CellMeter) -> &[u32]
        requires column { column < self.now.columns }
        requires row { row < self.now.columns }
        requires room { meter.old.cells + 1 < 2 ^ 64 }
        ensures listed { result.now ≡ cell_list self.now column row }
        ensures counted { meter.new.cells ≡ meter.old.cells + 1 }
    {
        meter.cells += 1;
        &self.cells[(column * self.columns + row) as usize]
    }
}

impl Finder for GridOutlines {
    ghost use Rattle.out_grid.specs.Grids.{along_list, over_list, is_listed_near};

    ghost list_along = { along_list };

    ghost list_over = { over_list };

    ghost is_near = { is_listed_near };

    fn along(&self, edge: u32, i: u32) -> Option<u32> {
        number_at(&self.lists, edge, i)
    }

    fn over(&self, corner: u32, i: u32) -> Option<u32> {
        let Some(cell) = self.corner_cells.get(corner as usize) else {
            return None;
        };
        number_at(&self.cells, *cell, i)
    }

    fn next_near(&self, corner: u32, told: u32, from: u32) -> Option<u32> {
        self.triangles.next_near(corner, told, from)
    }
}
