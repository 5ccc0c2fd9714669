// What texts for plotters share: where a point stands on the page, and how they grow in front of their endings.
ghost use Rattle.std.specs.Prelude.{◌≡◌, ◌<◌, ◌^◌, ◌-ℤ◌, unsigned_abs, ℕ, List, ◌++◌, IfOk, OnOk, OnErr};
ghost use Rattle.std.specs.Option.{ForSome};

use exact_frac::OutOfMemory;
use std::alloc::Global;

/// The height of a page that was begun.
pub(crate) fn height_of(page: Option<(i64, i64)>) -> i64
    ensures { ForSome page (λ page. result ≡ page.1) }
{
    match page {
        Some((_, height)) => height,
        None => 0,
    }
}

/// How far up from the lower edge of a page of this height a place is that is `y` down from the upper one.
pub(crate) fn upward(height: i64, y: i64) -> i128
    ensures value { result ≡ height -ℤ y }
    ensures size { unsigned_abs result < 2 ^ 65 }
{
    i128::from(height) - i128::from(y)
}

/// Adds more to a text in front of its ending. Where memory runs out, the text is as it was.
pub(crate) fn push_before(text: &mut Vec<u8>, more: &str, ending: &str) -> Result<(), OutOfMemory>
    requires { (body : List ℕ) × (text.old.items ≡ body ++ ending.now) }
    ensures ok { OnOk result ((body : List ℕ) → text.old.items ≡ body ++ ending.now → text.new.items ≡ body ++ more.now ++ ending.now) }
    ensures err { OnErr result (text.new.items ≡ text.old.items) }
{
    text.reserve(more.len())?;
    text.truncate(text.len().saturating_sub(ending.len()));
    text.extend_from_slice(more.as_bytes())?;
    text.extend_from_slice(ending.as_bytes())?;
    Ok(())
}

/// The text of a page without strokes: its beginning and its ending.
pub(crate) fn without_strokes(
    alloc: Global,
    beginning: &str,
    ending: &str,
) -> Result<Vec<u8>, OutOfMemory>
    ensures { IfOk result (λ text. text.items ≡ beginning.now ++ ending.now) }
{
    let mut text = Vec::new(alloc);
    text.extend_from_slice(beginning.as_bytes())?;
    text.extend_from_slice(ending.as_bytes())?;
    Ok(text)
}
