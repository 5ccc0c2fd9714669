// What tests are asked and what they answer, and the count of them.
ghost use Rattle.geometry.specs.Places.{IsPlace};

use exact_frac::Frac;

/// How many tests were made.
#[derive(Clone, Copy, PartialEq, Eq, Debug)]
pub struct Meter {
    pub tests: u64,
}

/// An end of an edge: its corner `a`, or its corner `b`.
#[derive(Clone, Copy, PartialEq, Eq, Debug)]
pub struct End {
    pub edge: u32,
    pub at_b: bool,
}

/// The place of an edge at which an outline passes nearer, or in the view of a cut the border of a face, a share of the way from 0 to 1 with a denominator below 2^69, and by how
/// much the counts to its left and to its right change there.
#[derive(Clone, Copy, Debug)]
pub struct Crossing {
    pub at: Frac,
    pub left: i8,
    pub right: i8,
    ghost at_place: { IsPlace at },
}

/// By how much an outline that passes over a corner changes the counts to the left and to the right, from an edge there to another.
#[derive(Clone, Copy, PartialEq, Eq, Debug)]
pub struct Turn {
    pub left: i8,
    pub right: i8,
}
