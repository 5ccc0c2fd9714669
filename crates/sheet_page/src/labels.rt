// The labels of the title block.
ghost use Rattle.std.specs.Prelude.{◌≡◌, [], ◌∷◌, ◌++◌, ◌*◌, ◌/◌, OnOk};
ghost use Rattle.std.specs.List.{All};
ghost use Rattle.text_fit.specs.Fits.{Fits};
ghost use Rattle.text_fit.specs.Widths.{text_width};
ghost use Rattle.sheet_page.specs.Cells.{IsCell};
ghost use Rattle.sheet_page.specs.Labels.{set_width, label_in, text_in, says};
ghost use Rattle.sheet_page.specs.inner.Spaces.{IsInSpace, AddsCells};

use crate::cells::{Cell, Space};
use crate::page::{Item, Label};
use crate::rules::Corner;
use exact_frac::OutOfMemory;
use std::alloc::Global;
use text_fit::{Fitted, Room, fit_text, text_width};

/// No letters of the block are smaller.
const LEAST: u32 = 180;

/// How wide a text is in its size.
fn wide(fitted: &Fitted, room: u32) -> u32
    requires { Fits room fitted.now.size (text_width fitted.now.text) }
    ensures { result ≡ text_width fitted.now.text * fitted.now.size / 1000 }
{
    (text_width(fitted.text.as_str()) * u128::from(fitted.size) / 1000) as u32
}

/// How wide a viewer is to set a text that is so wide, if that is told.
fn set_width(room: u32, wide: u32) -> Option<u32>
    ensures { result ≡ set_width room wide }
{
    if 8 * u64::from(room) < 10 * u64::from(wide) {
        Some(wide)
    } else {
        None
    }
}

/// The label of a text that was fitted into its space.
fn label_in(corner: &Corner, space: &Space, fitted: Fitted) -> Item
    requires { Fits space.now.width fitted.size (text_width fitted.text) }
    ensures { result ≡ label_in corner.now.at space.now fitted }
{
    let at = corner.point(space.x, space.y);
    let wide = wide(&fitted, space.width);
    Item::Label(Label {
        x: at.x,
        y: at.y,
        size: fitted.size,
        width: set_width(space.width, wide),
        text: fitted.text,
    })
}

/// Adds a text, if it isn't empty.
fn add_text(
    alloc: Global,
    items: &mut Vec<Item>,
    corner: &Corner,
    space: &Space,
    text: &str,
) -> Result<(), OutOfMemory>
    ensures items { OnOk result (items.new.items ≡ items.old.items ++ text_in corner.now.at space.now text.now) }
    ensures inside { OnOk result (All (IsInSpace corner.now.at space.now) (text_in corner.now.at space.now text.now)) }
{
    if text.is_empty() {
        return Ok(());
    }
    let room = Room {
        width: space.width,
        most: space.most,
        least: LEAST,
    };
    let fitted = fit_text(alloc, text, room)?;
    items.push(label_in(corner, space, fitted))?;
    Ok(())
}

/// Adds what a cell says: its caption and its text.
pub(crate) fn add_cell(
    alloc: Global,
    items: &mut Vec<Item>,
    corner: &Corner,
    cell: Cell,
    caption: &str,
    text: &str,
) -> Result<(), OutOfMemory>
    requires { IsCell cell }
    ensures { OnOk result (AddsCells corner.now.at items.old.items (says cell caption.now text.now ∷ []) items.new.items) }
{
    add_text(alloc, items, corner, &cell.caption, caption)?;
    add_text(alloc, items, corner, &cell.text, text)?;
    Ok(())
}
