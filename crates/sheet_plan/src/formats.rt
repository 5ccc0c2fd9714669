// The formats of sheets of paper.
ghost use Rattle.std.specs.Prelude.{◌≡◌, ◌<◌, ◌^◌, ◌%◌, pos, ◌≤ℤ◌, unsigned_abs};

/// Width and height of a sheet, in hundredths of a millimetre.
#[derive(Clone, Copy)]
pub(crate) struct Format {
    pub width: i64,
    pub height: i64,
    ghost whole_width: { unsigned_abs width % 100 ≡ 0 },
    ghost whole_height: { unsigned_abs height % 100 ≡ 0 },
    ghost least_width: { pos 4000 ≤ℤ width },
    ghost least_height: { pos 4000 ≤ℤ height },
    ghost width_in_range: { unsigned_abs width < 2 ^ 60 },
    ghost height_in_range: { unsigned_abs height < 2 ^ 60 },
}
