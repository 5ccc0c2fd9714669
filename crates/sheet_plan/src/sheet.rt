// A sheet with its views in place, and a stroke on it.
ghost use Rattle.std.specs.Prelude.{◌≡◌, ◌<◌, ◌≤◌, ◌^◌, ◌%◌, pos, ◌≤ℤ◌, unsigned_abs, length};
ghost use Rattle.exact_frac.specs.Frac.{IsLowest};

use exact_frac::Frac;
use job_file::Scale;
use lattice::Dir;

/// A view in its place: seen from `d`, with its origin at (`x0`, `y0`) on the sheet, in hundredths of a millimetre. Both are
/// below 2^60 in size.
#[derive(Clone, Copy, Debug)]
pub struct Spread {
    pub d: Dir,
    pub x0: i64,
    pub y0: i64,
    ghost x_in_range: { unsigned_abs x0 < 2 ^ 60 },
    ghost y_in_range: { unsigned_abs y0 < 2 ^ 60 },
}

/// A sheet with its views in place. `width` and `height` are in hundredths of a millimetre and whole millimetres, at least
/// 4000 and below 2^60. A unit of the part is 10^-`decimals` mm, with at most 6 decimals.
#[derive(Drop)]
pub struct Sheet {
    pub width: i64,
    pub height: i64,
    pub decimals: u8,
    pub scale: Scale,
    pub places: Vec<Spread>,
    ghost few_decimals: { decimals ≤ 6 },
    ghost whole_width: { unsigned_abs width % 100 ≡ 0 },
    ghost whole_height: { unsigned_abs height % 100 ≡ 0 },
    ghost least_width: { pos 4000 ≤ℤ width },
    ghost least_height: { pos 4000 ≤ℤ height },
    ghost width_in_range: { unsigned_abs width < 2 ^ 60 },
    ghost height_in_range: { unsigned_abs height < 2 ^ 60 },
}

/// How a stroke is drawn.
#[derive(Clone, Copy, PartialEq, Eq, Debug)]
pub enum Mark {
    /// A visible line.
    Solid,
    /// A hidden line.
    Dashed,
    /// The trace of a cut's plane.
    Chain,
    /// A line of the hatching of a section.
    Hatch,
}

/// A straight stroke of a view, from one point to another: U and V of both, in units and in lowest terms, and where they
/// stand on the sheet, in hundredths of a millimetre.
#[derive(Clone, Copy, Debug)]
pub struct Stroke {
    pub view: u32,
    pub mark: Mark,
    pub u1: Frac,
    pub v1: Frac,
    pub u2: Frac,
    pub v2: Frac,
    pub x1: i64,
    pub y1: i64,
    pub x2: i64,
    pub y2: i64,
    ghost u1_lowest: { IsLowest u1 },
    ghost v1_lowest: { IsLowest v1 },
    ghost u2_lowest: { IsLowest u2 },
    ghost v2_lowest: { IsLowest v2 },
}
