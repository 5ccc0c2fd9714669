// What one view shows.
use crate::numbers::ViewNumbers;
use lattice::{HatchLine, Piece, ViewSpec};
use span_count::EdgeSpans;

/// One view: its pieces and the hatch lines of its section, in their order, and how many faces are nearer along each drawn edge.
/// A view of the whole part has no hatch lines. In the view of a cut the counts are of what the plane leaves of the faces, and of its
/// section.
#[derive(Drop)]
pub struct ViewDrawing {
    pub spec: ViewSpec,
    pub pieces: Vec<Piece>,
    pub hatches: Vec<HatchLine>,
    pub counts: Vec<EdgeSpans>,
}

/// A view and its numbers.
#[derive(Drop)]
pub struct ViewLines {
    pub view: ViewDrawing,
    pub numbers: ViewNumbers,
}
