//! The tokens of a text, with their places and lines, in time that grows with the text and without memory.
//!
//! Tabs, vertical tabs, form feeds, carriage returns and spaces are blanks, and a line feed ends a line. Where a
//! text has comments, a `#` begins one, up to its line's end. A token is a run of other bytes that is as long as
//! can be, and its line is 1 plus the line feeds before it.
#![tactic(auto)]

mod token;
mod tokens;

pub use token::Token;
pub use tokens::Tokens;
