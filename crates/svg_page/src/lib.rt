//! The text of a sheet, in the SVG format (version 1.1): a frame, a title, and a group of lines for each view.
//!
//! `svg` writes the text of strokes that stand in a list. Who makes strokes one at a time writes it by `begin_page`, `begin_group`,
//! `add_line`, `end_group` and `end_page`, and needs no list. Other pages in SVG begin by `opening` and write texts by `add_escaped`.
#![tactic(auto)]

mod page;

pub use page::{add_escaped, add_line, begin_group, begin_page, end_group, end_page, opening, svg};
