// Counts: runs of digits.
ghost use Rattle.std.specs.Prelude.{◌≡◌, ◌<◌, ◌^◌, length, IfSome, IfOk};
ghost use Rattle.lex_lines.specs.Places.{line_at};
ghost use Rattle.off_reader.specs.Counts.{count_of, Count};
ghost use Rattle.part_text.specs.Made.{made};

use lex_lines::Tokens;
use part_text::{bytes_of, fault, next_token};
use weld::{PartFault, PartKind, Want};

/// A count and the line that it stands on.
#[derive(Clone, Copy)]
pub(crate) struct Counted {
    pub value: u64,
    pub line: u32,
}

/// What a run of digits stands for, held at the greatest `u64`.
pub fn count_of(text: &[u8]) -> Option<u64>
    ensures { result ≡ count_of text.now }
{
    if text.is_empty() {
        return None;
    }
    let mut value = 0u64;
    for byte in text {
        if !byte.is_ascii_digit() {
            return None;
        }
        value = value
            .saturating_mul(10)
            .saturating_add(u64::from(*byte - b'0'));
    }
    Some(value)
}

/// Reads a count.
pub(crate) fn read_count(
    bytes: &[u8],
    tokens: &mut Tokens<'_>,
    want: Want,
) -> Result<Counted, PartFault>
    requires same { tokens.old.text ≡ bytes.now }
    ensures step { Count bytes.now (line_at bytes.now (length bytes.now)) want tokens.old.left (made (λ n. (n.value, n.line)) result tokens.new.left) }
    ensures text { tokens.new.text ≡ tokens.old.text }
    ensures comments { tokens.new.comments ≡ tokens.old.comments }
    ensures line { IfOk result (λ n. tokens.new.line ≡ n.line) }
{
    let token = next_token(tokens, want)?;
    match count_of(bytes_of(bytes, token)) {
        Some(value) => Ok(Counted {
            value,
            line: token.line,
        }),
        None => Err(fault(token.line, PartKind::BadNumber)),
    }
}
