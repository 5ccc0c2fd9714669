//! What the views of a job show of a solid on a sheet, and the strokes of that.
#![tactic(auto)]

mod drawn;
mod strokes;
mod views;

pub use cross_find::Meter;
pub use drawn::{Drawing, Numbered, drawing_on};
pub use out_grid::CellMeter;
pub use strokes::{Stroked, strokes_of};
pub use view_lines::{ViewDrawing, ViewNumbers};
