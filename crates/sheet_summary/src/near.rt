// The lines that tell of views whose visible lines are near one another.
ghost use Rattle.std.specs.Prelude.{◌≡◌, ◌≤◌, ◌++◌, All, IfOk, OnOk, string_bytes};
ghost use Rattle.near_lines.specs.Sides.{IsSmall};
ghost use Rattle.sheet_summary.specs.NearLines.{near_line, near_lines, near_text, sides_from, sides_of};

use exact_frac::OutOfMemory;
use job_file::Scale;
use near_lines::{Nearness, Side, add_sides, nearness_of};
use sheet_page::Item;
use std::alloc::{AllocError, Global};

/// Adds the sides of what stands on a page under this number, if it is a visible path of this view.
fn add_item(sides: &mut Vec<Side>, view: u32, number: usize, item: &Item) -> Result<(), OutOfMemory>
    requires small { All IsSmall sides.old.items }
    ensures value { OnOk result (sides.new.items ≡ sides.old.items ++ sides_of view number item.now) }
    ensures small { OnOk result (All IsSmall sides.new.items) }
{
    match item {
        Item::Path(path) => add_sides(sides, view, number, path),
        _ => Ok(()),
    }
}

/// The sides of a view's visible paths.
fn sides_in(alloc: Global, view: u32, items: &[Item]) -> Result<Vec<Side>, OutOfMemory>
    ensures value { IfOk result (λ sides. sides.items ≡ sides_from view 0 items.now) }
    ensures small { IfOk result (λ sides. All IsSmall sides.items) }
{
    let mut sides = Vec::new(alloc);
    for number in 0..items.len() {
        add_item(&mut sides, view, number, &items[number])?;
    }
    Ok(sides)
}

/// What is said of a view's visible lines, if they are near one another.
fn near_text(alloc: Global, view: u32, nearness: Nearness) -> Result<String, AllocError>
    ensures { IfOk result (λ text. string_bytes text ≡ near_text view nearness) }
{
    match nearness {
        Nearness::Apart => Ok(String::new(alloc)),
        Nearness::ApartAt(scale) => {
            let (num, den) = (scale.num, scale.den);
            format!(in alloc;
                "view {view}: lines within 0.5 mm of one another: a scale of {num}:{den} shows them apart\n"
            )
        }
        Nearness::Close => {
            format!(in alloc;
                "view {view}: lines within 0.5 mm of one another: pieces detail shows them apart\n"
            )
        }
    }
}

/// The line of a view, on a page of this scale.
fn near_line(alloc: Global, scale: &Scale, items: &[Item], view: u32) -> Result<String, OutOfMemory>
    ensures { IfOk result (λ text. string_bytes text ≡ near_line scale.now items.now view) }
{
    let sides = sides_in(alloc, view, items)?;
    let nearness = nearness_of(alloc, scale, &sides)?;
    Ok(near_text(alloc, view, nearness)?)
}

/// The lines of the first views, on a page of this scale. It goes once over what stands there for each view; what else it takes is told at
/// `nearness_of`.
pub(crate) fn near_lines(
    alloc: Global,
    scale: &Scale,
    items: &[Item],
    views: u32,
) -> Result<String, OutOfMemory>
    ensures { IfOk result (λ text. string_bytes text ≡ near_lines scale.now items.now views) }
{
    let mut text = String::new(alloc);
    for view in 0..views {
        text.push_str(&near_line(alloc, scale, items, view)?)?;
    }
    Ok(text)
}
