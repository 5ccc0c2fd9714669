//! The strokes of a sheet joined to paths.
//!
//! Each facet of an arc is a stroke of its own. Where strokes of one view and one mark go on from one another without a corner
//! they are one path, so that a pen, or a pattern of dashes, follows them without a break.
#![tactic(auto)]

mod corners;
mod joining;
mod joint;
mod pairs;
mod path;
mod turns;
mod walking;

pub use joining::paths;
pub use path::{End, Path, Point, Step, Tip};
