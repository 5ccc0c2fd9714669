// A name that is kept, as that of a file.
ghost use Rattle.std.specs.Prelude.{◌≡◌, IfOk};

use exact_frac::OutOfMemory;
use std::alloc::Global;
use std::marker::Model;

/// A text of its own. Contracts see its bytes.
#[derive(Debug, Drop)]
pub struct Name {
    text: String,
}

impl Model for Name {
    ghost use Rattle.std.specs.Prelude.{List, ℕ, string_bytes};

    ghost Value = { List ℕ };

    ghost view = { λ name. string_bytes name.text };
}

impl Name {
    /// A copy of the text. The time goes with its length.
    pub fn new(alloc: Global, text: &str) -> Result<Name, OutOfMemory>
        ensures same { IfOk result (λ name. name ≡ text.now) }
    {
        Ok(Name {
            text: String::from_str(alloc, text)?,
        })
    }

    /// The text.
    pub fn as_str(&self) -> &str
        ensures same { result.now ≡ self.now }
    {
        self.text.as_str()
    }
}
