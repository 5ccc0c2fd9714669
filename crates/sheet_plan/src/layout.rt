// Where the views of a job stand on a sheet, at one scale.
ghost use Rattle.std.specs.Prelude.{◌≡◌, ◌<◌, ◌≤◌, ◌^◌, ℕ, ℤ, List, unsigned_abs, length, take, IfOk, slice_get, Some};
ghost use Rattle.std.specs.List.{All};
ghost use Rattle.lattice.specs.Points.{of_dir};
ghost use Rattle.sheet_plan.specs.Layout.{row_stride, column_stride, stride, lower_strides, sum_below, without_gap, need_w, need_h, cell_x, cell_y, StandsInCell, AreInPlace};
ghost use Rattle.sheet_plan.specs.inner.Sizes.{IsInGrid, IsSmall, IsStride, IsLength, AreLengths};
ghost use Rattle.sheet_plan.specs.inner.Strides.{band_at, stride_in, AreStarts};
ghost use Rattle.sheet_plan.specs.declared.cells.Shape.{Shape};

use crate::bounds::Extent;
use crate::cells::{Band, Bands, Cell, Shape};
use crate::shapes::GAP;
use crate::sheet::Spread;
use exact_frac::OutOfMemory;
use std::alloc::Global;

/// Where the grid begins, from the left and from above.
const MARGIN: i64 = 2000;

/// How wide and how high the views are together.
#[derive(Clone, Copy)]
pub(crate) struct Need {
    pub width: i64,
    pub height: i64,
}

/// What a row or a column takes, with the gap to the next one.
fn stride(shapes: &[Shape], band: Band) -> i64
    requires { All IsSmall shapes.now }
    ensures value { result ≡ stride shapes.now band }
    ensures size { IsStride result }
{
    let mut greatest: i64 = 0;
    for shape in shapes {
        greatest = greatest.max(shape.part(band));
    }
    greatest
}

/// What the views beneath the grid take, with a gap after each.
fn lower_strides(shapes: &[Shape]) -> i64
    requires small { All IsSmall shapes.now }
    requires few { length shapes.now ≤ 12 }
    ensures value { result ≡ lower_strides shapes.now }
    ensures size { IsLength result }
{
    let mut sum = 0;
    for shape in shapes {
        sum += shape.lower_part();
    }
    sum
}

impl Bands {
    /// The row or column with this number.
    fn at(self, number: u32) -> Band
        ensures { result ≡ band_at self number }
    {
        match self {
            Bands::Rows => Band::Row(number),
            Bands::Columns => Band::Column(number),
        }
    }
}

/// What the first rows or columns take.
fn strides_before(shapes: &[Shape], bands: Bands, count: u32) -> i64
    requires small { All IsSmall shapes.now }
    requires few { count ≤ 4 }
    ensures value { result ≡ sum_below (stride_in bands shapes.now) count }
    ensures size { IsLength result }
{
    let mut sum = 0;
    for number in 0..count {
        sum += stride(shapes, bands.at(number));
    }
    sum
}

/// Strides without the last gap, if there are any.
fn without_gap(strides: i64) -> i64
    requires { IsLength strides }
    ensures value { result ≡ without_gap strides }
    ensures size { IsLength result }
{
    (strides - GAP).max(0)
}

/// How wide and how high the views are together.
pub(crate) fn need_of(shapes: &[Shape]) -> Need
    requires small { All IsSmall shapes.now }
    requires few { length shapes.now ≤ 12 }
    ensures width { result.width ≡ need_w shapes.now }
    ensures height { result.height ≡ need_h shapes.now }
{
    let grid = without_gap(strides_before(shapes, Bands::Columns, 4));
    let lower = without_gap(lower_strides(shapes));
    Need {
        width: grid.max(lower),
        height: without_gap(strides_before(shapes, Bands::Rows, 4)),
    }
}

/// Where rows or columns begin, each as far from the first one.
#[derive(Clone, Copy)]
pub(crate) struct Starts {
    pub second: i64,
    pub third: i64,
    pub fourth: i64,
}

impl Starts {
    /// Where the rows or the columns begin. The row beneath the grid is row 3.
    fn of(shapes: &[Shape], bands: Bands) -> Starts
        requires { All IsSmall shapes.now }
        ensures value { AreStarts (stride_in bands shapes.now) result }
        ensures sizes { AreLengths result }
    {
        Starts {
            second: strides_before(shapes, bands, 1),
            third: strides_before(shapes, bands, 2),
            fourth: strides_before(shapes, bands, 3),
        }
    }

    /// Where the row or column with this number begins, from 0 on.
    fn at(&self, number: u32) -> i64
        requires few { number ≤ 3 }
        requires sizes { AreLengths self.now }
        ensures value { (stride : ℕ → ℤ) → AreStarts stride self.now → result ≡ sum_below stride number }
        ensures size { IsLength result }
    {
        match number {
            0 => 0,
            1 => self.second,
            2 => self.third,
            _ => self.fourth,
        }
    }
}

/// From where on a view's box stands, from the left, if so much of the lower row is taken.
fn cell_x(columns: &Starts, taken: i64, cell: Cell) -> i64
    requires columns { AreLengths columns.now }
    requires taken { IsLength taken }
    requires in_grid { IsInGrid cell }
    ensures value { (shapes : List Shape) (i : ℕ) → AreStarts (column_stride shapes) columns.now → taken ≡ lower_strides (take i shapes) → result ≡ cell_x shapes i cell }
    ensures size { unsigned_abs result < 2 ^ 53 }
{
    match cell {
        Cell::Grid(_, column) => MARGIN + columns.at(column),
        Cell::Lower => MARGIN + taken,
    }
}

/// From where on it stands, from above.
fn cell_y(rows: &Starts, cell: Cell) -> i64
    requires rows { AreLengths rows.now }
    requires in_grid { IsInGrid cell }
    ensures value { (shapes : List Shape) → AreStarts (row_stride shapes) rows.now → result ≡ cell_y shapes cell }
    ensures size { unsigned_abs result < 2 ^ 53 }
{
    match cell {
        Cell::Grid(row, _) => MARGIN + rows.at(row),
        Cell::Lower => MARGIN + rows.at(3),
    }
}

/// A view of this shape in its place, where so much of the lower row is taken.
fn place(rows: &Starts, columns: &Starts, taken: i64, shape: &Shape, extent: &Extent) -> Spread
    requires rows { AreLengths rows.now }
    requires columns { AreLengths columns.now }
    requires taken { IsLength taken }
    requires shape { IsSmall shape.now }
    ensures direction { of_dir result.d ≡ of_dir extent.now.d }
    ensures stands { (shapes : List Shape) (i : ℕ) → AreStarts (row_stride shapes) rows.now → AreStarts (column_stride shapes) columns.now → taken ≡ lower_strides (take i shapes)
        → StandsInCell shapes i shape.now result }
{
    Spread {
        d: extent.d,
        x0: cell_x(columns, taken, shape.cell) - shape.left,
        y0: cell_y(rows, shape.cell) + shape.top,
    }
}

/// All views in their places, in time that grows with their number.
pub(crate) fn places(
    alloc: Global,
    shapes: &[Shape],
    extents: &[Extent],
) -> Result<Vec<Spread>, OutOfMemory>
    requires small { All IsSmall shapes.now }
    requires few { length shapes.now ≤ 12 }
    requires count { length shapes.now ≡ length extents.now }
    ensures { IfOk result (λ places. AreInPlace shapes.now extents.now places.items) }
{
    let rows = Starts::of(shapes, Bands::Rows);
    let columns = Starts::of(shapes, Bands::Columns);
    let mut taken = 0;
    let mut places = Vec::new(alloc);
    for i in 0..shapes.len() {
        places.push(place(&rows, &columns, taken, &shapes[i], &extents[i]))?;
        taken += shapes[i].lower_part();
    }
    Ok(places)
}
