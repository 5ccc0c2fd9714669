//! The list of a sheet's strokes, for programs: the way from a sheet back to the model.
//!
//! Its head tells the unit, the scale, for each view what it shows and where its origin stands on the sheet, and which strokes aren't
//! drawn there; then it is a piece list, with the exact U and V of each stroke. The text is decimal, and each line ends with a line feed.
#![tactic(auto)]

mod left_out;
mod list;
mod shown;

pub use list::list_text;
