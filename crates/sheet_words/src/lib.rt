//! The words after the program's name: a part, and what `sheet` makes of it; or `--help` or `--version`.
#![tactic(auto)]

mod said;
mod said_words;
mod words;

pub use said::SaidTexts;
pub use words::{Asked, ListOut, Out, SheetRequest, read_words};
