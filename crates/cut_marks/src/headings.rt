// The headings of cut views on a page.
ghost use Rattle.std.specs.Prelude.{◌≡◌, ◌≤◌, ◌++◌, ◌∷◌, [], OnOk};
ghost use Rattle.text_fit.specs.Fits.{Fits};
ghost use Rattle.text_fit.specs.Widths.{text_width};
ghost use Rattle.sheet_page.specs.Labels.{set_width};
ghost use Rattle.cut_marks.specs.Ranges.{IsHeadingInRange};
ghost use Rattle.cut_marks.specs.Items.{room_of, wide_of, heading_label, heading_item, IsWellHeaded};

use crate::figures::Heading;
use crate::heading_texts::{LEAST, heading_text};
use exact_frac::OutOfMemory;
use length_text::LengthForm;
use sheet_page::{Item, Label};
use std::alloc::Global;
use text_fit::{Fitted, Room, fit_text, text_width};

/// The greatest size of a heading's letters.
const MOST: u32 = 500;

/// The room of a heading.
fn room_of(heading: &Heading) -> Room
    ensures { result ≡ room_of heading.now }
{
    Room {
        width: heading.room,
        most: MOST,
        least: LEAST,
    }
}

/// How wide a text is in its size.
fn wide_of(fitted: &Fitted, room: u32) -> u32
    requires { Fits room fitted.now.size (text_width fitted.now.text) }
    ensures { result ≡ wide_of fitted.now }
{
    (text_width(fitted.text.as_str()) * u128::from(fitted.size) / 1000) as u32
}

/// How wide a viewer is to set a text that is so wide, if that is told.
fn set_width(room: u32, wide: u32) -> Option<u32>
    ensures { result ≡ set_width room wide }
{
    if 8 * u64::from(room) < 10 * u64::from(wide) {
        Some(wide)
    } else {
        None
    }
}

/// The label of a heading whose text was fitted.
fn heading_label(heading: &Heading, fitted: Fitted) -> Item
    requires here { IsHeadingInRange heading.now }
    requires fits { Fits heading.now.room fitted.size (text_width fitted.text) }
    ensures { result ≡ heading_label heading.now fitted }
{
    let wide = wide_of(&fitted, heading.room);
    Item::Label(Label {
        x: heading.x - i64::from(wide / 2),
        y: heading.y,
        size: fitted.size,
        width: set_width(heading.room, wide),
        text: fitted.text,
    })
}

/// Adds the heading of a view with this title, which says lengths in this form.
pub(crate) fn add_heading(
    alloc: Global,
    items: &mut Vec<Item>,
    heading: &Heading,
    title: &str,
    form: LengthForm,
) -> Result<(), OutOfMemory>
    requires { IsHeadingInRange heading.now }
    ensures items { OnOk result (items.new.items ≡ items.old.items ++ heading_item form.decimals form.unit heading.now title.now ∷ []) }
    ensures well { OnOk result (IsWellHeaded form.decimals form.unit heading.now title.now) }
{
    let text = heading_text(alloc, form, heading, title)?;
    let fitted = fit_text(alloc, text.as_str(), room_of(heading))?;
    items.push(heading_label(heading, fitted))?;
    Ok(())
}
