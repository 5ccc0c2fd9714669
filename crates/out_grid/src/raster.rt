// How a view is cut into cells.
ghost use Rattle.std.specs.Prelude.{◌≡◌, ◌<◌, ◌≤◌, ◌^◌, ◌*◌, ◌/◌, ◌+◌, unsigned_abs};

/// U and V from which columns and rows are counted, and how wide and how high a cell is, in units.
#[derive(Clone, Copy)]
pub(crate) struct Raster {
    pub(crate) left: i64,
    pub(crate) bottom: i64,
    pub(crate) width: u64,
    pub(crate) height: u64,
    ghost left_small: { unsigned_abs left < 2 ^ 29 },
    ghost bottom_small: { unsigned_abs bottom < 2 ^ 29 },
    ghost wide: { 0 < width },
    ghost high: { 0 < height },
    ghost width_small: { width ≤ 2 ^ 30 },
    ghost height_small: { height ≤ 2 ^ 30 },
}

/// How far a corner is to the right of the raster's left border, and above its lower one.
#[derive(Clone, Copy)]
pub(crate) struct RasterPlace {
    pub(crate) u: u64,
    pub(crate) v: u64,
    ghost u_small: { u < 2 ^ 31 },
    ghost v_small: { v < 2 ^ 31 },
}

impl Raster {
    /// The number of the cell that a place is in: column by column, from the lowest row on.
    pub(crate) fn cell_of(&self, place: RasterPlace, columns: u32) -> u32
        requires few { columns ≤ 256 }
        requires column { place.u / self.now.width < columns }
        requires row { place.v / self.now.height < columns }
        ensures value { result ≡ ((place.u / self.now.width) * columns) + (place.v / self.now.height) }
        ensures within { result < columns * columns }
    {
        (place.u / self.width) as u32 * columns + (place.v / self.height) as u32
    }
}
