// Tokens one by one, and their bytes.
ghost use Rattle.std.specs.Prelude.{◌≡◌, ◌<◌, ◌≤◌, length, IfOk};
ghost use Rattle.std.specs.Str.{str_eq_ignore_ascii_case};
ghost use Rattle.lex_lines.specs.Places.{line_at};
ghost use Rattle.part_text.specs.Words.{text_of, NextToken, is_word, ends_with};
ghost use Rattle.part_text.specs.Made.{made};

use lex_lines::{Token, Tokens};
use weld::{PartFault, PartKind, Want};

/// A fault on this line.
pub fn fault(line: u32, kind: PartKind) -> PartFault
    ensures { result ≡ record { line = line; kind = kind } }
{
    PartFault { line, kind }
}

/// The next token, or the lack of what is wanted, on the text's last line. The time goes with the bytes up to the token's
/// end, and for a lack with the text.
pub fn next_token(tokens: &mut Tokens<'_>, want: Want) -> Result<Token, PartFault>
    ensures step { NextToken (line_at tokens.old.text (length tokens.old.text)) want tokens.old.left (made (λ t. t) result tokens.new.left) }
    ensures within { IfOk result (λ t. (t.from < t.to) × (t.to ≤ length tokens.old.text)) }
    ensures text { tokens.new.text ≡ tokens.old.text }
    ensures comments { tokens.new.comments ≡ tokens.old.comments }
    ensures line { IfOk result (λ t. tokens.new.line ≡ t.line) }
{
    match tokens.next() {
        Some(token) => Ok(token),
        None => Err(fault(tokens.end_line(), PartKind::Missing(want))),
    }
}

/// The bytes of a token.
pub fn bytes_of<'t>(bytes: &'t [u8], token: Token) -> &'t [u8]
    requires some { token.from < token.to }
    requires within { token.to ≤ length bytes.now }
    ensures { result.now ≡ text_of bytes.now token }
{
    &bytes[token.from as usize..token.to as usize]
}

/// The text is this word, in any case of its letters.
pub fn is_word(text: &[u8], word: &[u8]) -> bool
    ensures { result ≡ is_word word.now text.now }
{
    text.eq_ignore_ascii_case(word)
}

/// The text ends with this word, in any case of its letters.
pub fn ends_with(text: &[u8], word: &[u8]) -> bool
    ensures { result ≡ ends_with word.now text.now }
{
    is_word(&text[text.len().saturating_sub(word.len())..], word)
}
