// The cells of the title block.
ghost use Rattle.std.specs.Prelude.{◌≡◌, ◌≤◌, ◌+◌};
ghost use Rattle.sheet_page.specs.Cells.{low_cell, tall_cell, IsCell};

/// Where a text is in the block: where its base line begins, how wide it may be, and the most that its letters' size may be.
#[derive(Clone, Copy)]
pub(crate) struct Space {
    pub x: u32,
    pub y: u32,
    pub width: u32,
    pub most: u32,
}

/// A cell: its upper left corner, its size, and where its caption and its text are.
#[derive(Clone, Copy)]
pub(crate) struct Cell {
    pub x: u32,
    pub y: u32,
    pub width: u32,
    pub height: u32,
    pub caption: Space,
    pub text: Space,
}

/// A cell with its caption on the left, in a column so wide, and its text beside it.
pub(crate) fn low_cell(x: u32, y: u32, width: u32, height: u32, column: u32) -> Cell
    requires right { x + width ≤ 18000 }
    requires bottom { y + height ≤ 2200 }
    requires high { 290 ≤ height }
    requires low { height ≤ 510 }
    requires margin { 80 ≤ column }
    requires wide { column + 80 ≤ width }
    ensures value { result ≡ low_cell x y width height column }
    ensures is_cell { IsCell result }
{
    let base = y + height - 100;
    Cell {
        x,
        y,
        width,
        height,
        caption: Space {
            x: x + 80,
            y: base,
            width: column - 80,
            most: 180,
        },
        text: Space {
            x: x + column,
            y: base,
            width: width - column - 80,
            most: height - 110,
        },
    }
}

/// A cell with its caption above its text, whose letters are at most so large.
pub(crate) fn tall_cell(x: u32, y: u32, width: u32, height: u32, most: u32) -> Cell
    requires right { x + width ≤ 18000 }
    requires bottom { y + height ≤ 2200 }
    requires high { most + 130 ≤ height }
    requires low { most ≤ 520 }
    requires caption { 245 ≤ height }
    requires wide { 160 ≤ width }
    ensures value { result ≡ tall_cell x y width height most }
    ensures is_cell { IsCell result }
{
    Cell {
        x,
        y,
        width,
        height,
        caption: Space {
            x: x + 80,
            y: y + 200,
            width: width - 160,
            most: 180,
        },
        text: Space {
            x: x + 80,
            y: y + height - 130,
            width: width - 160,
            most,
        },
    }
}
