// Keywords, and what may follow one.
ghost use Rattle.std.specs.Prelude.{◌≡◌, ◌<◌, ◌≤◌, length, IfOk};
ghost use Rattle.part_text.specs.Made.{made};
ghost use Rattle.part_text.specs.Words.{text_of, is_word};
ghost use Rattle.stl_reader.specs.Letters.{letters_of};
ghost use Rattle.stl_reader.specs.Stl.{Keyword, WordLine, FacetOrEnd, AnotherSolid};

use lex_lines::{Token, Tokens};
use part_text::{bytes_of, fault, is_word, next_token};
use weld::{PartFault, PartKind, Want, Word};

/// Whether another facet follows, and the line of the word that says so.
#[derive(Clone, Copy)]
pub(crate) struct Follows {
    pub facet: bool,
    pub line: u32,
}

/// The letters of a keyword.
fn letters_of(word: Word) -> &'static [u8]
    ensures { result.now ≡ letters_of word }
{
    match word {
        Word::Solid => b"solid",
        Word::Facet => b"facet",
        Word::Normal => b"normal",
        Word::Outer => b"outer",
        Word::Loop => b"loop",
        Word::Vertex => b"vertex",
        Word::Endloop => b"endloop",
        Word::Endfacet => b"endfacet",
    }
}

/// The token is this word.
fn is_keyword(bytes: &[u8], token: Token, word: Word) -> bool
    requires some { token.from < token.to }
    requires within { token.to ≤ length bytes.now }
    ensures { result ≡ is_word (letters_of word) (text_of bytes.now token) }
{
    is_word(bytes_of(bytes, token), letters_of(word))
}

/// Reads this word, and gives its line.
pub(crate) fn read_keyword(
    bytes: &[u8],
    tokens: &mut Tokens<'_>,
    word: Word,
) -> Result<u32, PartFault>
    requires same { tokens.old.text ≡ bytes.now }
    ensures step { Keyword bytes.now word tokens.old.left (made (λ line. line) result tokens.new.left) }
    ensures text { tokens.new.text ≡ tokens.old.text }
    ensures line { IfOk result (λ line. tokens.new.line ≡ line) }
{
    let token = next_token(tokens, Want::Keyword(word))?;
    if !is_keyword(bytes, token, word) {
        return Err(fault(token.line, PartKind::Expected(word)));
    }
    Ok(token.line)
}

/// Reads this word, and passes over the rest of its line.
pub(crate) fn read_word_line(
    bytes: &[u8],
    tokens: &mut Tokens<'_>,
    word: Word,
) -> Result<(), PartFault>
    requires same { tokens.old.text ≡ bytes.now }
    ensures step { WordLine bytes.now word tokens.old.left (made (λ _. tt) result tokens.new.left) }
    ensures text { tokens.new.text ≡ tokens.old.text }
{
    read_keyword(bytes, tokens, word)?;
    tokens.skip_line();
    Ok(())
}

/// Reads `facet` or `endsolid`.
pub(crate) fn read_facet_or_end(bytes: &[u8], tokens: &mut Tokens<'_>) -> Result<Follows, PartFault>
    requires same { tokens.old.text ≡ bytes.now }
    ensures step { FacetOrEnd bytes.now tokens.old.left (made (λ w. (w.facet, w.line)) result tokens.new.left) }
    ensures text { tokens.new.text ≡ tokens.old.text }
    ensures line { IfOk result (λ w. tokens.new.line ≡ w.line) }
{
    let token = next_token(tokens, Want::Keyword(Word::Facet))?;
    if is_keyword(bytes, token, Word::Facet) {
        return Ok(Follows {
            facet: true,
            line: token.line,
        });
    }
    if !is_word(bytes_of(bytes, token), b"endsolid") {
        return Err(fault(token.line, PartKind::Expected(Word::Facet)));
    }
    Ok(Follows {
        facet: false,
        line: token.line,
    })
}

/// Behind an `endsolid`: whether another solid follows, passing over its first line.
pub(crate) fn another_solid(bytes: &[u8], tokens: &mut Tokens<'_>) -> Result<bool, PartFault>
    requires same { tokens.old.text ≡ bytes.now }
    ensures step { AnotherSolid bytes.now tokens.old.left (made (λ more. more) result tokens.new.left) }
    ensures text { tokens.new.text ≡ tokens.old.text }
{
    let Some(token) = tokens.next() else {
        return Ok(false);
    };
    if !is_keyword(bytes, token, Word::Solid) {
        return Err(fault(token.line, PartKind::Expected(Word::Solid)));
    }
    tokens.skip_line();
    Ok(true)
}
