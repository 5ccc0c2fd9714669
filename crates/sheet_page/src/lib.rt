//! A page: what stands on a sheet of paper, its title block among it, and its text as SVG and as PDF.
//!
//! Lengths are in hundredths of a millimetre; x goes to the right and y goes down, from the upper left corner. The title block has the
//! fields of ISO 7200. It is in the lower right corner of the sheet's frame, 180 mm wide and 22 mm high. Nothing of it is outside, no
//! text leaves its cell, and it is clear of each rectangle that ends to the left of it or above it, as a view does with its sides (lemma
//! `clear_of_views`).
#![tactic(auto)]

mod block;
mod block_cells;
mod block_names;
mod cells;
mod chains;
mod dashes;
mod labels;
mod page;
mod pdf_content;
mod pdf_objects;
mod pdf_text;
mod pdf_words;
mod pens;
mod rules;
mod svg_text;
mod symbol;

pub use block::title_block;
pub use block_names::part_name;
pub use dashes::{Dashes, dashes_of};
pub use page::{ArrowHead, Circle, Fill, Frame, Item, Label, Page, Pen, Rule};
pub use pdf_text::pdf;
pub use pens::{Pens, pens_of};
pub use svg_text::svg;
