// Where a column ends.
ghost use Rattle.std.specs.Prelude.{◌≡◌, ◌∷◌, ◌++◌, MatchOption};
ghost use Rattle.piece_verify.specs.Columns.{IsFree};

/// The bytes before the first of this value, and those behind it.
pub(crate) fn split_at_byte(text: &[u8], byte: u8) -> Option<(&[u8], &[u8])>
    ensures { MatchOption result (IsFree byte text.now) (λ parts. IsFree byte parts.0.now × (text.now ≡ parts.0.now ++ byte ∷ parts.1.now)) }
{
    for (at, next) in text.iter().enumerate() {
        if *next == byte {
            return Some((&text[..at], &text[at + 1..]));
        }
    }
    None
}
