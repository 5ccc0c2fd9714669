// Where a token stands.

/// A token: the bytes from one place to before another, and the line of the first, from 1 on.
#[derive(Clone, Copy, PartialEq, Eq, Debug)]
pub struct Token {
    pub from: u32,
    pub to: u32,
    pub line: u32,
}
