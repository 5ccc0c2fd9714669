// The size in which a text fits its place.
ghost use Rattle.std.specs.Prelude.{◌≡◌, ◌<◌, IfOk, string_bytes};
ghost use Rattle.text_fit.specs.Fits.{size_in, IsCut, IsFitted};
ghost use Rattle.text_fit.specs.inner.Kept.{IsKept};

use crate::widths::{text_width, width_of};
use dec_text::Name;
use exact_frac::OutOfMemory;
use std::alloc::{AllocError, Global};

/// How wide a place is, and the greatest and the least size of letters there, all in one unit of length.
#[derive(Clone, Copy, PartialEq, Eq, Debug)]
pub struct Room {
    pub width: u32,
    pub most: u32,
    pub least: u32,
}

/// A text as it is put into its place, and the size of its letters.
#[derive(Drop, Debug)]
pub struct Fitted {
    pub size: u32,
    pub text: Name,
}

/// How wide three points are.
const POINTS: u64 = 834;

/// The greatest size up to the most in which a text of this width fits.
fn size_in(room: u32, most: u32, width: u128) -> u32
    ensures { result ≡ size_in room most width }
{
    (1000 * u128::from(room) / width.max(1)).min(u128::from(most)) as u32
}

/// As many of the first characters as are no wider than this.
fn kept(alloc: Global, text: &str, width: u64) -> Result<String, AllocError>
    ensures { IfOk result (λ kept. IsKept width text.now (string_bytes kept)) }
{
    let mut kept = String::new(alloc);
    let mut left = width;
    for c in text.chars() {
        let next = u64::from(width_of(c));
        if left < next {
            return Ok(kept);
        }
        left -= next;
        kept.push(c)?;
    }
    Ok(kept)
}

/// The beginning of the text that fits in letters of this size with three points behind it, and the points; or nothing where not even
/// they fit.
fn cut(alloc: Global, text: &str, room: u32, size: u32) -> Result<String, AllocError>
    requires some { 0 < size }
    ensures { IfOk result (λ cut. IsCut room size text.now (string_bytes cut)) }
{
    let most = 1000 * u64::from(room) / u64::from(size);
    if most < POINTS {
        return Ok(String::new(alloc));
    }
    let mut cut = kept(alloc, text, most - POINTS)?;
    cut.push_str("...")?;
    Ok(cut)
}

/// Fits a text into a place: whole, in the greatest size in which it isn't wider, if that isn't less than the least; else cut, in the
/// least. If the least is more than the most, the most is the least too.
pub fn fit_text(alloc: Global, text: &str, room: Room) -> Result<Fitted, OutOfMemory>
    ensures { IfOk result (IsFitted room text.now) }
{
    let size = size_in(room.width, room.most, text_width(text));
    let least = room.least.min(room.most);
    if least <= size {
        return Ok(Fitted {
            size,
            text: Name::new(alloc, text)?,
        });
    }
    let shown = cut(alloc, text, room.width, least)?;
    Ok(Fitted {
        size: least,
        text: Name::new(alloc, shown.as_str())?,
    })
}
