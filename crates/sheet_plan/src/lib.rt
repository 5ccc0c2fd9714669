//! Sheets: where the views of a drawing stand, at which scale, and what is drawn of a piece.
//!
//! Lengths on the sheet are in hundredths of a millimetre, rounded to the nearest whole number, exactly. x goes to the right
//! and y goes down, from the sheet's upper left corner.
//!
//! `plan` puts the views at the upper left of what a sheet has for them, from 20 mm from its left and upper edge to 20 mm from its right
//! and 40 mm from its lower edge.
#![tactic(auto)]

mod bounds;
mod boxes;
mod cells;
mod errors;
mod extents;
mod formats;
mod kinds;
mod layout;
mod numbers;
mod planning;
mod shapes;
mod sheet;
mod strokes;

pub use bounds::Extent;
pub use boxes::ViewBox;
pub use errors::PlanError;
pub use extents::{Reach, extent, reach_along};
pub use numbers::Ruler;
pub use planning::plan;
pub use sheet::{Mark, Sheet, Spread, Stroke};
