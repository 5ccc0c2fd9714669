//! Which lines a sheet draws: of the paths of its strokes those that are asked for and not covered, and so which strokes.
#![tactic(auto)]

mod kept;
mod lines;
mod shown;
mod ways;

pub use lines::{SheetLines, lines_of};
