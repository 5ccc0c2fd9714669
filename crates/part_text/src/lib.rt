//! What the readers of part texts share: tokens as words and coordinates, and the zero byte that no text has.
#![tactic(auto)]

mod tokens;
mod vertices;
mod zeros;

pub use tokens::{bytes_of, ends_with, fault, is_word, next_token};
pub use vertices::{read_coordinate, read_vertex};
pub use zeros::zero_line;
