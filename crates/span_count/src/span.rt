// Spans of an edge with the two counts of nearer faces.
ghost use Rattle.geometry.specs.Places.{IsPlace};

use exact_frac::Frac;

/// A part of an edge, between two shares of the way along it from 0 to 1, and how many faces are nearer there that reach to
/// its left, and to its right; in the view of a cut by what the plane leaves of them, and one more where the section is. Faces that are
/// seen edge-on are never counted. The denominators are below 2^69.
#[derive(Clone, Copy, Debug)]
pub struct CountSpan {
    pub from: Frac,
    pub to: Frac,
    pub left: u32,
    pub right: u32,
    ghost from_place: { IsPlace from },
    ghost to_place: { IsPlace to },
}

/// An edge by its number, and its spans.
#[derive(Debug, Drop)]
pub struct EdgeSpans {
    pub edge: u32,
    pub spans: Vec<CountSpan>,
}
