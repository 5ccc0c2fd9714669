//! The program `mend`: from the words and a desk to a part whose surface is sound.
//!
//! A part that is sound already stays as it is. One that isn't loses the triangles that come in pairs on the same corners, turned
//! opposite, and then its slivers, nearly flat triangles, are flipped; what is left is checked, and nothing is written that isn't sound.
#![tactic(auto)]

mod answers;
mod end;
mod file_lines;
mod lines;
mod lists;
mod made;
mod mending;
mod put;
mod refusal;
mod refusals;
mod run;
mod take;
mod texts;

pub use answers::runs_have_answers;
pub use end::MendOutcome;
pub use lines::{HELP, MEMORY_LINE, VERSION};
pub use made::{Mended, Report};
pub use mending::mended;
pub use part_input::{Fault, Input, Target};
pub use run::mend;
