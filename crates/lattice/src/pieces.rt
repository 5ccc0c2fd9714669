// What a drawing is made of.
ghost use Rattle.std.specs.Prelude.{◌≡◌, ◌≤◌, length};
ghost use Rattle.lattice.specs.Lines.{AreStripEndsInSomeView};

use crate::cuts::Cut;
use crate::lines::Line;
use crate::points::{Dir, Spot};

/// How far two faces turn where they meet in a crease: by more than about 5, 15 or 30 degrees.
#[derive(Clone, Copy, PartialEq, Eq, Debug)]
pub enum Crease {
    Fine,
    Normal,
    Coarse,
}

impl Crease {
    ghost use Rattle.lattice.specs.Creases.{fraction_of};

    /// The square of the cosine of that turn, over 1,000,000.
    pub fn fraction(self) -> u32
        ensures { result ≡ fraction_of self }
    {
        match self {
            Crease::Fine => 992_404,
            Crease::Normal => 933_013,
            Crease::Coarse => 750_000,
        }
    }
}

/// How a line is drawn.
#[derive(Clone, Copy, PartialEq, Eq, Debug)]
pub enum Style {
    /// A visible line.
    Solid,
    /// A hidden line.
    Dashed,
    /// The trace of a cut's plane.
    Chain,
}

/// A straight piece of a drawing, from one spot to the other.
#[derive(Clone, Copy, Debug)]
pub struct Piece {
    pub a: Spot,
    pub b: Spot,
    pub style: Style,
}

/// A straight line of the hatching of a section, from one spot to the other.
#[derive(Clone, Copy, Debug)]
pub struct HatchLine {
    pub a: Spot,
    pub b: Spot,
}

/// What a strip is of: a visible line, a hidden one, or the trace of a cut's plane.
#[derive(Clone, Copy, PartialEq, Eq, Debug)]
pub enum StripKind {
    Seen,
    Hidden,
    Trace,
}

/// A part of a line that is drawn, before lines that coincide are put together. From some direction both spots are seen on
/// the line, and not at one place.
#[derive(Clone, Copy, Debug)]
pub struct Strip {
    pub line: Line,
    pub a: Spot,
    pub b: Spot,
    pub kind: StripKind,
    ghost seen: { ∥ AreStripEndsInSomeView line a b ∥₁ },
}

/// What a view shows.
#[derive(Clone, Copy)]
pub enum ViewSpec {
    /// The whole part, seen from this direction.
    Plain(Dir),
    /// What is left of the part beyond this cut, with its section.
    Section(Cut),
}

impl ViewSpec {
    ghost use Rattle.lattice.specs.ShownCuts.{cuts_of};

    /// How many cuts the view shows: one or none.
    pub fn cuts(&self) -> usize
        ensures value { result ≡ length (cuts_of self.now) }
        ensures size { result ≤ 1 }
    {
        match self {
            ViewSpec::Plain(_) => 0,
            ViewSpec::Section(_) => 1,
        }
    }
}
