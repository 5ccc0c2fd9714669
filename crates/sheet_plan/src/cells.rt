// The cells of a layout, and the views' boxes in them.

/// Where a view stands: in the grid, in this row and column, or in the row beneath it.
#[derive(Clone, Copy)]
pub(crate) enum Cell {
    Grid(u32, u32),
    Lower,
}

/// A row of the grid, with the row beneath it as row 3, or a column.
#[derive(Clone, Copy)]
pub(crate) enum Band {
    Row(u32),
    Column(u32),
}

/// All rows, or all columns.
#[derive(Clone, Copy)]
pub(crate) enum Bands {
    Rows,
    Columns,
}

/// A view's cell, and its box on the sheet: how far it reaches to the left and to the top from the view's origin, and its size.
#[derive(Clone, Copy)]
pub(crate) struct Shape {
    pub cell: Cell,
    pub left: i64,
    pub top: i64,
    pub width: i64,
    pub height: i64,
}
