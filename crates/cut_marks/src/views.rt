// What tells the cuts in one view.
ghost use Rattle.std.specs.Prelude.{All};
ghost use Rattle.std.specs.Option.{ForSome};
ghost use Rattle.cut_marks.specs.Ranges.{IsHeadingInRange, IsMarkInRange};

use crate::figures::{CutMark, Heading};

/// What tells the cuts in one view: a cut view has a heading, a plain view marks. `left_out` are the letters, as ASCII codes, of the
/// cuts whose plane the view sees edge-on, but whose marks would touch others. All places are below 2^62 in size.
#[derive(Drop)]
pub struct ViewMarks {
    pub heading: Option<Heading>,
    pub marks: Vec<CutMark>,
    pub left_out: Vec<u8>,
    ghost heading_in_range: { ForSome heading IsHeadingInRange },
    ghost marks_in_range: { All IsMarkInRange marks.items },
}
