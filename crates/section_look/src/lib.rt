//! How a sheet shows the sections of cut views: thin regions are filled, and the hatch lines of the others are so close that each
//! has some.
//!
//! A region is an outer loop of a section, one that is in no other loop, with the loops in it. A region is thin if its hatch lines,
//! 3 mm apart on the sheet, are all at most 2.15 mm long, or if it has none: that is a wall of at most 1.5 mm across. It is
//! filled by the rule of even and odd, as narrow sections are (ISO 128-50). The hatch lines of a view are 3, 2, 1.5 or 1 mm apart: the
//! first of these at which each other region has at least four, or else 1 mm.
#![tactic(auto)]

mod fills;
mod looks;
mod loops;
mod nesting;
mod points;
mod regions;
mod spacings;
mod strokes;
mod thin;

pub use fills::Fill;
pub use looks::{SectionLook, looks_of};
pub use strokes::hatch_strokes;
