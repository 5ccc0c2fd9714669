// The keyword and the counts.
ghost use Rattle.std.specs.Prelude.{◌≡◌, ◌≤◌, true, length, IfOk};
ghost use Rattle.lex_lines.specs.Scan.{tokens_of};
ghost use Rattle.off_reader.specs.Off.{keyword, Limited, Header};
ghost use Rattle.part_text.specs.Steps.{Computes};
ghost use Rattle.part_text.specs.Made.{made};

use crate::counts::read_count;
use lex_lines::Tokens;
use part_text::{bytes_of, ends_with, fault, is_word, next_token};
use weld::{PartFault, PartKind, Want};

/// The counts of vertices and of faces.
#[derive(Clone, Copy)]
pub(crate) struct Counts {
    pub vertices: u32,
    pub faces: u32,
}

/// Reads the keyword, if it is there.
fn read_keyword<'t>(bytes: &'t [u8], tokens: &mut Tokens<'t>) -> Result<(), PartFault>
    requires same { tokens.old.text ≡ bytes.now }
    requires start { tokens.old.left ≡ tokens_of true bytes.now }
    requires short { length bytes.now ≤ 16777216 }
    ensures step { Computes (keyword bytes.now) tokens.old.left (made (λ _. tt) result tokens.new.left) }
    ensures text { tokens.new.text ≡ tokens.old.text }
    ensures comments { tokens.new.comments ≡ tokens.old.comments }
{
    let mut ahead = Tokens::new(bytes, true);
    let Some(first) = ahead.next() else {
        return Ok(());
    };
    let text = bytes_of(bytes, first);
    if !is_word(text, b"OFF") {
        if ends_with(text, b"OFF") {
            return Err(fault(first.line, PartKind::Prefixed));
        }
        return Ok(());
    }
    let _keyword = tokens.next();
    match ahead.next() {
        Some(second) if is_word(bytes_of(bytes, second), b"BINARY") => {
            Err(fault(second.line, PartKind::Binary))
        }
        _ => Ok(()),
    }
}

/// Reads a count up to a limit.
fn read_limited(bytes: &[u8], tokens: &mut Tokens<'_>, limit: u32) -> Result<u32, PartFault>
    requires same { tokens.old.text ≡ bytes.now }
    ensures step { Limited bytes.now limit tokens.old.left (made (λ n. n) result tokens.new.left) }
    ensures text { tokens.new.text ≡ tokens.old.text }
    ensures comments { tokens.new.comments ≡ tokens.old.comments }
    ensures most { IfOk result (λ n. n ≤ limit) }
{
    let count = read_count(bytes, tokens, Want::Count)?;
    if count.value > u64::from(limit) {
        return Err(fault(count.line, PartKind::TooMany));
    }
    Ok(count.value as u32)
}

/// Reads the header.
pub(crate) fn read_header<'t>(bytes: &'t [u8], tokens: &mut Tokens<'t>) -> Result<Counts, PartFault>
    requires same { tokens.old.text ≡ bytes.now }
    requires start { tokens.old.left ≡ tokens_of true bytes.now }
    requires short { length bytes.now ≤ 16777216 }
    ensures step { Header bytes.now tokens.old.left (made (λ h. (h.vertices, h.faces)) result tokens.new.left) }
    ensures text { tokens.new.text ≡ tokens.old.text }
    ensures comments { tokens.new.comments ≡ tokens.old.comments }
    ensures few_vertices { IfOk result (λ h. h.vertices ≤ 60000) }
    ensures few_faces { IfOk result (λ h. h.faces ≤ 20000) }
{
    read_keyword(bytes, tokens)?;
    let vertices = read_limited(bytes, tokens, 60000)?;
    let faces = read_limited(bytes, tokens, 20000)?;
    let _edges = next_token(tokens, Want::Count)?;
    Ok(Counts { vertices, faces })
}
