//! Plotters: outputs of a drawing beside its SVG.
//!
//! Any value that meets the trait [`Plotter`] may be handed in as a box. A [`Rack`] holds those that names choose, and gives
//! each of them the page and every stroke, in order. What it promises rests on the trait alone.
#![tactic(auto)]

mod dxf;
mod hpgl;
mod list;
mod paper;
mod plotter;
mod rack;

pub use dxf::DxfPlotter;
pub use hpgl::HpglPlotter;
pub use list::ListPlotter;
pub use plotter::Plotter;
pub use rack::{Rack, RackError};
