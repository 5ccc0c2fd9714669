// Why words say nothing.
ghost use Rattle.std.specs.Prelude.{◌≡◌};
ghost use Rattle.draw_words.specs.declared.errors.WordsError.TheVariants.{Memory};

use exact_frac::OutOfMemory;
use std::alloc::AllocError;

/// Why words say nothing.
#[derive(Clone, Copy, PartialEq, Eq, Debug)]
pub enum WordsError {
    /// They are no sentence of the grammar.
    Usage,
    Memory(OutOfMemory),
}

impl From<AllocError> for WordsError {
    ghost from_gives = { λ _ e. e ≡ Memory (record {}) };

    fn from(_: AllocError) -> Self {
        WordsError::Memory(OutOfMemory)
    }
}

impl From<OutOfMemory> for WordsError {
    ghost from_gives = { λ _ e. e ≡ Memory (record {}) };

    fn from(_: OutOfMemory) -> Self {
        WordsError::Memory(OutOfMemory)
    }
}
