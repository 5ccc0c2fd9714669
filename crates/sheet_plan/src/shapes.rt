// The boxes of the views of a job, at one scale.
ghost use Rattle.std.specs.Prelude.{◌≡◌, ◌<◌, ◌≤◌, ◌^◌, pos, ◌+ℤ◌, ◌≤ℤ◌, unsigned_abs, if◌then◌else◌, length, IfOk};
ghost use Rattle.lattice.specs.Points.{of_dir};
ghost use Rattle.sheet_plan.specs.Layout.{gap, cell_of, across_at, upward_at, shape_of, is_in_row, is_in_column, is_lower, part_of, lower_part_of};
ghost use Rattle.sheet_plan.specs.Numbers.{measure_of};
ghost use Rattle.sheet_plan.specs.inner.Sizes.{IsInGrid, IsSmall, IsStride, AreShapes};

use crate::bounds::Extent;
use crate::cells::{Band, Cell, Shape};
use crate::numbers::Ruler;
use exact_frac::{Frac, OutOfMemory};
use job_file::{JobView, Principal};
use lattice::Dir;
use std::alloc::Global;

/// What is between neighbours.
pub(crate) const GAP: i64 = 1500;

impl Cell {
    /// The cell of a view with this name, in third-angle or in first-angle projection.
    fn of(third: bool, named: Option<Principal>) -> Cell
        ensures value { result ≡ cell_of third named }
        ensures in_grid { IsInGrid result }
    {
        let Some(name) = named else {
            return Cell::Lower;
        };
        match (name, third) {
            (Principal::Front, _) => Cell::Grid(1, 1),
            (Principal::Back, _) => Cell::Grid(1, 3),
            (Principal::Above, false) | (Principal::Below, true) => Cell::Grid(2, 1),
            (Principal::Above, true) | (Principal::Below, false) => Cell::Grid(0, 1),
            (Principal::Left, false) | (Principal::Right, true) => Cell::Grid(1, 2),
            (Principal::Left, true) | (Principal::Right, false) => Cell::Grid(1, 0),
        }
    }

    /// The cell is in this row; the one beneath the grid is row 3.
    fn is_in_row(&self, row: u32) -> bool
        ensures { result ≡ is_in_row row self.now }
    {
        match self {
            Cell::Grid(own, _) => *own == row,
            Cell::Lower => 3 == row,
        }
    }

    /// The cell is in this column of the grid.
    fn is_in_column(&self, column: u32) -> bool
        ensures { result ≡ is_in_column column self.now }
    {
        match self {
            Cell::Grid(_, own) => *own == column,
            Cell::Lower => false,
        }
    }

    fn is_lower(&self) -> bool
        ensures { result ≡ is_lower self.now }
    {
        match self {
            Cell::Grid(_, _) => false,
            Cell::Lower => true,
        }
    }
}

impl Shape {
    /// What the view takes of a row or of a column, with the gap to the next one.
    pub(crate) fn part(&self, band: Band) -> i64
        requires { IsSmall self.now }
        ensures value { result ≡ part_of band self.now }
        ensures size { IsStride result }
    {
        match band {
            Band::Row(row) => stride_if(self.cell.is_in_row(row), self.height),
            Band::Column(column) => stride_if(self.cell.is_in_column(column), self.width),
        }
    }

    /// What the view takes of the row beneath the grid, with the gap after it.
    pub(crate) fn lower_part(&self) -> i64
        requires { IsSmall self.now }
        ensures value { result ≡ lower_part_of self.now }
        ensures size { IsStride result }
    {
        stride_if(self.cell.is_lower(), self.width)
    }
}

/// A length with a gap, or nothing.
fn stride_if(stands: bool, length: i64) -> i64
    requires least { pos 0 ≤ℤ length }
    requires greatest { length ≤ℤ pos (2 ^ 46) }
    ensures value { result ≡ (if stands then length +ℤ gap else pos 0) }
    ensures size { IsStride result }
{
    if stands { length + GAP } else { 0 }
}

/// A number of a corner, as a fraction.
fn whole(number: i64) -> Frac
    requires { unsigned_abs number < 2 ^ 29 }
    ensures num { result.num ≡ number }
    ensures den { result.den ≡ pos 1 }
{
    Frac {
        num: number.into(),
        den: 1,
    }
}

/// U of a corner, on the sheet.
pub(crate) fn across_at(ruler: &Ruler, d: &Dir, u: i64) -> i64
    requires { unsigned_abs u < 2 ^ 29 }
    ensures value { result ≡ across_at (measure_of ruler.now.scale ruler.now.decimals) (of_dir d.now) u }
    ensures size { unsigned_abs result ≤ 2 ^ 45 }
{
    ruler.across(d, &whole(u))
}

/// V of a corner, on the sheet.
pub(crate) fn upward_at(ruler: &Ruler, d: &Dir, v: i64) -> i64
    requires { unsigned_abs v < 2 ^ 29 }
    ensures value { result ≡ upward_at (measure_of ruler.now.scale ruler.now.decimals) (of_dir d.now) v }
    ensures size { unsigned_abs result ≤ 2 ^ 45 }
{
    ruler.upward(d, &whole(v))
}

/// The shape of a view that reaches this far.
fn shape_of(third: bool, ruler: &Ruler, view: &JobView, extent: &Extent) -> Shape
    ensures value { result ≡ shape_of third (measure_of ruler.now.scale ruler.now.decimals) view.now extent.now }
    ensures small { IsSmall result }
{
    let left = across_at(ruler, &extent.d, extent.u_min);
    let right = across_at(ruler, &extent.d, extent.u_max);
    let bottom = upward_at(ruler, &extent.d, extent.v_min);
    let top = upward_at(ruler, &extent.d, extent.v_max);
    Shape {
        cell: Cell::of(third, view.named),
        left,
        top,
        width: right - left,
        height: top - bottom,
    }
}

/// The shapes of the views, in their order.
pub(crate) fn shapes(
    alloc: Global,
    third: bool,
    ruler: &Ruler,
    views: &[JobView],
    extents: &[Extent],
) -> Result<Vec<Shape>, OutOfMemory>
    requires { length views.now ≡ length extents.now }
    ensures { IfOk result (λ shapes. AreShapes third (measure_of ruler.now.scale ruler.now.decimals) views.now extents.now shapes.items) }
{
    let mut shapes = Vec::new(alloc);
    for i in 0..views.len() {
        shapes.push(shape_of(third, ruler, &views[i], &extents[i]))?;
    }
    Ok(shapes)
}
