// A line, whether it took memory or not.
use arrayvec::ArrayString;

/// A line of a fixed text in place, or one that was made.
#[derive(Drop)]
pub enum Line {
    Fixed(ArrayString<96>),
    Made(String),
}

impl Line {
    ghost use Rattle.std.specs.Prelude.{◌≡◌};
    ghost use Rattle.fault_lines.specs.Told.{text_of};

    /// Its text.
    pub fn as_str(&self) -> &str
        ensures { result.now ≡ text_of self.now }
    {
        match self {
            Line::Fixed(text) => text.as_str(),
            Line::Made(text) => text.as_str(),
        }
    }
}
