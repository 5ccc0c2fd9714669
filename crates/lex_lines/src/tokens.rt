// The tokens of a text, one after the other.
ghost use Rattle.std.specs.Prelude.{◌≡◌, ◌+◌, ◌<◌, ◌≤◌, false, [], ◌∷◌, length, filter, nat_lt, count_by, slice_index, position, IfSome, MatchOption};
ghost use Rattle.std.specs.List.{position_or_len};
ghost use Rattle.lex_lines.specs.Bytes.{is_feed, is_gap};
ghost use Rattle.lex_lines.specs.Places.{IsToken, AreTokens, line_at};
ghost use Rattle.lex_lines.specs.Scan.{ends_run, comment_after, line_after, tokens_of};
ghost use Rattle.lex_lines.specs.inner.Cursors.{left_at};

use crate::token::Token;
use std::marker::Model;

/// Reads the tokens of a text one by one, without memory of its own.
///
/// No call goes back, so the time of all calls of `next` and `skip_line` together grows with the text's length.
#[derive(Drop)]
pub struct Tokens<'t> {
    bytes: &'t [u8],
    comments: bool,
    // The next token is looked for from here on.
    place: usize,
    line: u32,
}

impl<'t> Model for Tokens<'t> {
    ghost use Rattle.lex_lines.specs.TokenReader.{TokenReader};
    ghost use Rattle.lex_lines.specs.inner.Cursors.{IsCursor, left_at};

    ghost Value = { TokenReader };

    ghost view = { λ tokens. record { text = tokens.bytes.now; comments = tokens.comments; left = left_at tokens.comments tokens.bytes.now tokens.place tokens.line; line = tokens.line } };

    ghost invariant = { λ tokens. IsCursor tokens.comments tokens.bytes.now tokens.place tokens.line };
}

/// A blank or a line feed.
fn is_gap(byte: u8) -> bool
    ensures { result ≡ is_gap byte }
{
    matches!(byte, 9..=13 | 32)
}

/// The byte ends a token: it is a blank, a line feed or the mark of a comment.
fn ends_run(comments: bool, byte: u8) -> bool
    ensures { result ≡ ends_run comments byte }
{
    is_gap(byte) || (comments && byte == b'#')
}

/// The next byte is in a comment.
fn comment_after(comments: bool, in_comment: bool, byte: u8) -> bool
    ensures { result ≡ comment_after comments in_comment byte }
{
    byte != b'\n' && (in_comment || (comments && byte == b'#'))
}

/// The line of the next byte.
fn line_after(line: u32, byte: u8) -> u32
    requires { line ≤ 16777216 }
    ensures value { result ≡ line_after line byte }
    ensures most { result ≤ line + 1 }
{
    if byte == b'\n' { line + 1 } else { line }
}

/// Where the next token begins.
#[derive(Clone, Copy)]
struct Start {
    place: usize,
    line: u32,
}

/// Where the first token at the place or behind it begins. The place is in no token and no comment.
fn skip_gap(bytes: &[u8], comments: bool, place: usize, line: u32) -> Option<Start>
    requires short { length bytes.now ≤ 16777216 }
    requires within { place ≤ length bytes.now }
    requires lines { line ≤ place + 1 }
    ensures same { MatchOption result (left_at comments bytes.now place line ≡ []) (λ start. left_at comments bytes.now place line ≡ left_at comments bytes.now start.place start.line) }
    ensures solid { IfSome result (λ start. ends_run comments (slice_index bytes.now start.place) ≡ false) }
    ensures within { IfSome result (λ start. start.place < length bytes.now) }
    ensures lines { IfSome result (λ start. start.line ≤ start.place + 1) }
{
    let mut line = line;
    let mut in_comment = false;
    for at in place..bytes.len() {
        let byte = bytes[at];
        if !in_comment && !ends_run(comments, byte) {
            return Some(Start { place: at, line });
        }
        in_comment = comment_after(comments, in_comment, byte);
        line = line_after(line, byte);
    }
    None
}

/// The first byte that ends a token.
fn run_end(bytes: &[u8], comments: bool) -> Option<usize>
    ensures place { result ≡ position (λ byte. ends_run comments byte) bytes.now }
    ensures within { IfSome result (λ end. end < length bytes.now) }
{
    bytes.iter().position(|byte| ends_run(comments, *byte))
}

/// The first line feed.
fn line_end(bytes: &[u8]) -> Option<usize>
    ensures place { result ≡ position is_feed bytes.now }
    ensures within { IfSome result (λ end. end < length bytes.now) }
{
    bytes.iter().position(|byte| *byte == b'\n')
}

/// How many bytes stand before the end of the token that the first byte is in.
fn run_length(bytes: &[u8], comments: bool) -> usize
    ensures place { result ≡ position_or_len (λ byte. ends_run comments byte) bytes.now }
    ensures within { result ≤ length bytes.now }
{
    run_end(bytes, comments).unwrap_or(bytes.len())
}

/// How many bytes stand before the end of the line that the first byte is in.
fn line_length(bytes: &[u8]) -> usize
    ensures place { result ≡ position_or_len is_feed bytes.now }
    ensures within { result ≤ length bytes.now }
{
    line_end(bytes).unwrap_or(bytes.len())
}

/// How many line feeds there are.
fn count_feeds(bytes: &[u8]) -> u32
    requires { length bytes.now ≤ 16777216 }
    ensures { result ≡ count_by is_feed bytes.now }
{
    let mut count = 0;
    for byte in bytes {
        if *byte == b'\n' {
            count += 1;
        }
    }
    count
}

impl<'t> Tokens<'t> {
    /// Before the first token of the text, which has at most 16,777,216 bytes. Where it has comments, a `#` begins one, up
    /// to the line's end.
    pub fn new(bytes: &'t [u8], comments: bool) -> Tokens<'t>
        requires { length bytes.now ≤ 16777216 }
        ensures text { result.text ≡ bytes.now }
        ensures comments { result.comments ≡ comments }
        ensures tokens { AreTokens comments bytes.now result.left }
        ensures pass { result.left ≡ tokens_of comments bytes.now }
        ensures line { result.line ≡ 1 }
    {
        Tokens {
            bytes,
            comments,
            place: 0,
            line: 1,
        }
    }

    /// The next token, or `None` where none is left. The time goes with the bytes from here to the token's end.
    pub fn next(&mut self) -> Option<Token>
        ensures left { MatchOption result ((self.old.left ≡ []) × (self.new.left ≡ [])) (λ token. self.old.left ≡ token ∷ self.new.left) }
        ensures line { MatchOption result (self.new.line ≡ self.old.line) (λ token. self.new.line ≡ token.line) }
        ensures token { IfSome result (IsToken self.old.comments self.old.text) }
        ensures some { IfSome result (λ token. token.from < token.to) }
        ensures within { IfSome result (λ token. token.to ≤ length self.old.text) }
        ensures text { self.new.text ≡ self.old.text }
        ensures comments { self.new.comments ≡ self.old.comments }
    {
        let Some(start) = skip_gap(self.bytes, self.comments, self.place, self.line) else {
            self.place = self.bytes.len();
            return None;
        };
        let end = start.place + run_length(&self.bytes[start.place..], self.comments);
        self.place = end;
        self.line = start.line;
        Some(Token {
            from: start.place as u32,
            to: end as u32,
            line: start.line,
        })
    }

    /// Passes over the tokens that are left on the line of the last one taken, or on the first line where none
    /// was taken. The time goes with the bytes from here to the line's end.
    pub fn skip_line(&mut self)
        ensures left { self.new.left ≡ filter (λ token. nat_lt self.old.line token.line) self.old.left }
        ensures line { self.new.line ≡ self.old.line }
        ensures text { self.new.text ≡ self.old.text }
        ensures comments { self.new.comments ≡ self.old.comments }
    {
        self.place += line_length(&self.bytes[self.place..]);
    }

    /// The line of the text's end: 1 plus the line feeds. It goes once over the text.
    pub fn end_line(&self) -> u32
        ensures { result ≡ line_at self.now.text (length self.now.text) }
    {
        1 + count_feeds(self.bytes)
    }
}
