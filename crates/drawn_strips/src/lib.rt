//! What a view draws, as strips of lines: of its edges, of the borders of a section, and of the traces of cuts.
//!
//! A strip is the span of an edge, a segment of a border, or a trace, on the line on which it is seen, with its kind. Strips that show
//! of each ordinary point what is drawn there, and whether it is hidden, are put together to pieces that are right for the view
//! (proofs: ViewRight, CutRight), however their spans were found: `view_lines` finds them by counts, and `piece_verify` by all faces.
#![tactic(auto)]

mod border_strips;
mod edge_strips;
mod trace_strips;

pub use border_strips::add_borders;
pub use edge_strips::{add_strips, edge_line};
pub use trace_strips::add_traces;
