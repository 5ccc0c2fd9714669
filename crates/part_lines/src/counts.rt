// How many vertices, faces and facets a text has.
ghost use Rattle.std.specs.Prelude.{◌≡◌, ◌≤◌, true, false, length, drop, count_by};
ghost use Rattle.lex_lines.specs.Scan.{tokens_of};
ghost use Rattle.part_lines.specs.Hints.{behind_off, said, counts_hint, head_hint, is_facet};

use crate::first::{first_word, is_off};
use crate::hint::PartHint;
use lex_lines::Tokens;
use off_reader::count_of;
use part_text::{bytes_of, is_word};

/// The tokens of an OFF behind the word `OFF`.
fn behind_off(text: &[u8]) -> Tokens<'_>
    requires { length text.now ≤ 16777216 }
    ensures left { result.left ≡ behind_off text.now (tokens_of true text.now) }
    ensures text { result.text ≡ text.now }
{
    let mut tokens = Tokens::new(text, true);
    if is_off(first_word(text)) {
        let _keyword = tokens.next();
    }
    tokens
}

/// What the next token says as a count; 0 if it is none.
fn said(text: &[u8], tokens: &mut Tokens<'_>) -> u64
    requires same { tokens.old.text ≡ text.now }
    ensures value { result ≡ said text.now tokens.old.left }
    ensures left { tokens.new.left ≡ drop 1 tokens.old.left }
    ensures text { tokens.new.text ≡ tokens.old.text }
{
    match tokens.next() {
        Some(token) => count_of(bytes_of(text, token)).unwrap_or(0),
        None => 0,
    }
}

/// The tokens of an OFF behind the three counts of its head.
pub(crate) fn behind_head(text: &[u8]) -> Tokens<'_>
    requires { length text.now ≤ 16777216 }
    ensures left { result.left ≡ drop 3 (behind_off text.now (tokens_of true text.now)) }
    ensures text { result.text ≡ text.now }
{
    let mut tokens = behind_off(text);
    let _vertices = said(text, &mut tokens);
    let _faces = said(text, &mut tokens);
    let _edges = said(text, &mut tokens);
    tokens
}

/// The first of two counts that is over its limit.
fn counts_hint(vertices: u64, faces: u64) -> PartHint
    ensures { result ≡ counts_hint vertices faces }
{
    if vertices > 60000 {
        return PartHint::Vertices(vertices);
    }
    if faces > 20000 {
        PartHint::Faces(faces)
    } else {
        PartHint::Nothing
    }
}

/// The count of the head of an OFF that is over its limit.
pub(crate) fn head_hint(text: &[u8]) -> PartHint
    requires { length text.now ≤ 16777216 }
    ensures { result ≡ head_hint text.now (behind_off text.now (tokens_of true text.now)) }
{
    let mut tokens = behind_off(text);
    let vertices = said(text, &mut tokens);
    let faces = said(text, &mut tokens);
    counts_hint(vertices, faces)
}

/// How many words `facet` there are, in any case of their letters, no byte being in a comment.
pub(crate) fn count_facets(text: &[u8]) -> u64
    requires { length text.now ≤ 16777216 }
    ensures { result ≡ count_by (is_facet text.now) (tokens_of false text.now) }
{
    let mut tokens = Tokens::new(text, false);
    let mut count = 0;
    while let Some(token) = tokens.next() {
        if is_word(bytes_of(text, token), b"facet") {
            count += 1;
        }
    }
    count
}
