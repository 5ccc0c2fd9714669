//! Where the views of a sheet stand.
#![tactic(auto)]

mod anchors;
mod blocks;
mod cells;
mod extents;
mod layout;
mod plans;
mod rects;
mod rooms;
mod rows;
mod seats;
mod sides;
mod through;
mod trials;

pub use cells::{Beside, Cell, Line, Side};
pub use layout::{Layout, LayoutError, NoRoom, Wish, lay_out};
pub use sides::Sides;
pub use through::goes_through;
