//! The program `sheet`: from the words and a desk to a sheet for paper and screen.
//!
//! It draws views as `draw` does, on a layout of its own (`sheet_layout`), with their strokes joined to paths and dashes that are fitted to
//! them, as SVG or as PDF, and lists its strokes for programs where that is asked for. Of a fault it tells one line, with the file's name and the fault's place.
#![tactic(auto)]

mod answers;
mod end;
mod jobs;
mod lines;
mod millimetres;
mod page;
mod parts;
mod picture;
mod put;
mod refusals;
mod rooms;
mod run;
mod texts;
mod unread;

pub use answers::runs_have_answers;
pub use drawing::Drawing;
pub use end::SheetOutcome;
pub use lines::{HELP, VERSION};
pub use page::page_of;
pub use part_input::{Fault, Input, Target};
pub use refusals::MEMORY_LINE;
pub use run::sheet;
pub use sheet_input::{SheetFault, SheetInput, SheetTarget};
