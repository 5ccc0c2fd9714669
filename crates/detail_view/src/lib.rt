//! The program `pieces`: it judges a list of pieces, and draws what of a view stands in a window.
#![tactic(auto)]

mod answers;
mod check;
mod detail;
mod fault;
mod inputs;
mod numbers;
mod run;
mod words;

pub use answers::runs_have_answers;
pub use detail_pieces::{Window, clip};
pub use fault::{PiecesFault, PiecesOutcome};
pub use run::pieces;
pub use words::{CheckWords, DetailWords, Words, read_words};
