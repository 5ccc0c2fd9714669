// Counts of cells, and of steps.

/// How often a cell was put into or read.
#[derive(Clone, Copy, PartialEq, Eq, Debug)]
pub struct CellMeter {
    pub cells: u64,
}

/// How often a cell was made, the cell of a corner found, the box of a triangle looked at, or a triangle put into a cell.
#[derive(Clone, Copy, PartialEq, Eq, Debug)]
pub struct NearMeter {
    pub steps: u64,
}
