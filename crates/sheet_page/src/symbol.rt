// The symbol of an angle of projection.
ghost use Rattle.std.specs.Prelude.{◌≡◌, ◌≤◌, ◌++◌, OnOk};
ghost use Rattle.sheet_page.specs.Symbols.{frustum_of, centre_lines, circle_from, frustum_left, circles_middle, symbol_of};

use crate::page::{Circle, Item, Pen, Rule};
use crate::rules::{Corner, add_rules};
use exact_frac::OutOfMemory;

/// A frustum from here on to the right, with its centre line.
fn frustum_of(corner: &Corner, x: u32) -> [Rule; 5]
    requires least { 1000 ≤ x }
    requires most { x ≤ 17000 }
    ensures { result ≡ frustum_of corner.now.at x }
{
    [
        corner.rule(Pen::Strong, x, 1330, x, 1630),
        corner.rule(Pen::Strong, x + 750, 1180, x + 750, 1780),
        corner.rule(Pen::Strong, x, 1330, x + 750, 1180),
        corner.rule(Pen::Strong, x, 1630, x + 750, 1780),
        corner.rule(Pen::Thin, x - 120, 1480, x + 870, 1480),
    ]
}

/// The centre lines of circles around here.
fn centre_lines(corner: &Corner, x: u32) -> [Rule; 2]
    requires least { 1000 ≤ x }
    requires most { x ≤ 17000 }
    ensures { result ≡ centre_lines corner.now.at x }
{
    [
        corner.rule(Pen::Thin, x - 420, 1480, x + 420, 1480),
        corner.rule(Pen::Thin, x, 1060, x, 1900),
    ]
}

/// A circle around here.
fn circle(corner: &Corner, x: u32, radius: u32) -> Circle
    ensures { result ≡ circle_from corner.now.at x radius }
{
    let middle = corner.point(x, 1480);
    Circle {
        x: middle.x,
        y: middle.y,
        radius,
    }
}

/// Where the frustum begins.
fn frustum_left(third: bool) -> u32
    ensures value { result ≡ frustum_left third }
    ensures least { 1000 ≤ result }
    ensures most { result ≤ 17000 }
{
    if third { 7200 } else { 6250 }
}

/// The middle of the circles.
fn circles_middle(third: bool) -> u32
    ensures value { result ≡ circles_middle third }
    ensures least { 1000 ≤ result }
    ensures most { result ≤ 17000 }
{
    if third { 6550 } else { 7650 }
}

/// Adds the symbol of third-angle projection, or of first-angle projection.
pub(crate) fn add_symbol(
    items: &mut Vec<Item>,
    corner: &Corner,
    third: bool,
) -> Result<(), OutOfMemory>
    ensures { OnOk result (items.new.items ≡ items.old.items ++ symbol_of corner.now.at third) }
{
    let middle = circles_middle(third);
    add_rules(items, &frustum_of(corner, frustum_left(third)))?;
    add_rules(items, &centre_lines(corner, middle))?;
    items.push(Item::Circle(circle(corner, middle, 150)))?;
    items.push(Item::Circle(circle(corner, middle, 300)))?;
    Ok(())
}
