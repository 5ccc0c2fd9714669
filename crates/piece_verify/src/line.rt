// The lines of a list.
ghost use Rattle.std.specs.Prelude.{◌≡◌, ◌↔◌, IsTrue, codes, MatchOption};
ghost use Rattle.piece_verify.specs.Columns.{IsColumn, HasNoColumn};
ghost use Rattle.piece_verify.specs.ListLines.{IsPageAt, HasNoPage, IsEntryAt, HasNoEntry};
ghost use Rattle.piece_verify.specs.inner.Pairs.{ArePlaces, places_text, AreEnds, ends_text};

use crate::columns::{mark_column, view_column};
use crate::pairs::{fraction_pair, number_pair};
use crate::split::split_at_byte;
use exact_frac::Frac;
use sheet_plan::Mark;

/// What a line says of a stroke: its view, its mark, and U and V of both ends.
#[derive(Clone, Copy, Debug)]
pub struct Entry {
    pub view: u32,
    pub mark: Mark,
    pub u1: Frac,
    pub v1: Frac,
    pub u2: Frac,
    pub v2: Frac,
}

/// The bytes are the word at a list's head.
fn is_page(bytes: &[u8]) -> bool
    ensures { IsTrue result ↔ bytes.now ≡ codes "page" }
{
    matches!(bytes, b"page")
}

/// What stands behind the line of a page, where the text begins with one.
pub fn read_page(text: &[u8]) -> Option<&[u8]>
    ensures { MatchOption result (HasNoPage text.now) (λ rest. IsPageAt text.now rest.now) }
{
    let (word, text) = split_at_byte(text, b' ')?;
    if !is_page(word) {
        return None;
    }
    let (_, rest) = number_pair(text, b'\n')?;
    Some(rest)
}

/// The columns of two points on the sheet.
fn places(text: &[u8]) -> Option<(((i64, i64), (i64, i64)), &[u8])>
    ensures { MatchOption result (HasNoColumn ArePlaces places_text 10 text.now) (λ r. IsColumn ArePlaces places_text 10 text.now r.0 r.1.now) }
{
    let (from, text) = number_pair(text, b' ')?;
    let (to, rest) = number_pair(text, b'\n')?;
    Some(((from, to), rest))
}

/// The columns of two points of a view.
fn ends(text: &[u8]) -> Option<(((Frac, Frac), (Frac, Frac)), &[u8])>
    ensures { MatchOption result (HasNoColumn AreEnds ends_text 32 text.now) (λ r. IsColumn AreEnds ends_text 32 text.now r.0 r.1.now) }
{
    let (from, text) = fraction_pair(text)?;
    let (to, rest) = fraction_pair(text)?;
    Some(((from, to), rest))
}

/// What the line of a stroke says that the text begins with, and what stands behind it. The stroke's view isn't below this one.
///
/// The time goes with the length of the line, or of its first columns up to one that can't be read and to the end of that.
pub fn read_entry(text: &[u8], least: u32) -> Option<(Entry, &[u8])>
    ensures { MatchOption result (HasNoEntry least text.now) (λ r. IsEntryAt least text.now r.0 r.1.now) }
{
    let (view, text) = view_column(text, least)?;
    let (mark, text) = mark_column(text)?;
    let (((u1, v1), (u2, v2)), text) = ends(text)?;
    let (_, rest) = places(text)?;
    let entry = Entry {
        view,
        mark,
        u1,
        v1,
        u2,
        v2,
    };
    Some((entry, rest))
}
