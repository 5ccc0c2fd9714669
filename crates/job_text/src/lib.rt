//! The lines of a job's text, with their places.
//!
//! The text is a part of TOML 1.1: each line is empty, a header `[key]` or `[[key]]`, or an entry `key = value`, and may end with a
//! comment. A key is one word without quotes. A value is on its line: a text in quotes, `true` or `false`, a number of TOML that has
//! digits, a sign and a point only, or a list of these. What is read is read by the same readers as TOML itself (`toml_parser`), so
//! that each line means what it means there (`lines_are_toml`). Numbers stay as they are written, so that no digit of theirs is lost.
//! That reader also rounds each number to a float, which isn't used; a number that is too large for its types is a flaw.
//!
//! Cost: time that grows with the text.
#![tactic(auto)]

mod fault;
mod item;
mod key;
mod line;
mod lines;
mod list;
mod meaning_in_toml;
mod place;
mod spelling;

pub use fault::{Flaw, Stop};
pub use item::{TextItem, Written};
pub use line::{Meaning, TextLine};
pub use lines::text_lines;
pub use meaning_in_toml::lines_are_toml;
pub use place::{TextPlace, flaw_place, text_place};
pub use spelling::are_near;
