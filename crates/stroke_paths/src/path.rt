// Paths, and what they are made of.
ghost use Rattle.std.specs.Prelude.{◌≡◌};
ghost use Rattle.stroke_paths.specs.Joints.{other_tip};

use sheet_plan::Mark;

/// A point of a sheet, in hundredths of a millimetre, from the upper left corner to the right and down.
#[derive(Clone, Copy, PartialEq, Eq, Hash, Debug)]
pub struct Point {
    pub x: i64,
    pub y: i64,
}

/// Which of the two ends of a stroke.
#[derive(Clone, Copy, PartialEq, Eq, Debug)]
pub enum Tip {
    First,
    Second,
}

impl Tip {
    /// The other end of the same stroke.
    pub(crate) fn other(self) -> Tip
        ensures { result ≡ other_tip self }
    {
        match self {
            Tip::First => Tip::Second,
            Tip::Second => Tip::First,
        }
    }
}

/// An end of a stroke, which goes by its place among the strokes.
#[derive(Clone, Copy, PartialEq, Eq, Debug)]
pub struct End {
    pub stroke: usize,
    pub tip: Tip,
}

/// A stroke that is passed, by its place among the strokes: from its first end to its second, or turned, from its second to its
/// first.
#[derive(Clone, Copy, PartialEq, Eq, Debug)]
pub struct Step {
    pub stroke: usize,
    pub turned: bool,
}

/// Strokes of one view and mark, passed one after the other: the points from one to the next. A closed path goes on from its
/// last point to its first, which isn't there twice.
#[derive(Debug, Drop)]
pub struct Path {
    pub view: u32,
    pub mark: Mark,
    pub closed: bool,
    pub points: Vec<Point>,
}
