// What a page's items are in PDF.
ghost use Rattle.std.specs.Prelude.{◌≡◌, ◌++◌, IfOk, OnOk, string_bytes, codes};
ghost use Rattle.std.specs.Fmt.{decimal};
ghost use Rattle.std.specs.List.{flat_map};
ghost use Rattle.sheet_page.specs.Chains.{phase_between, phase_of};
ghost use Rattle.sheet_page.specs.Dashes.{length_of, fitted};
ghost use Rattle.sheet_page.specs.PdfContent.{points, frame_line, before_words, label_line, dashed_pen, chain_pen, pen, rule_pen, rule_lines, circle_start, lower_right, lower_left, upper_left, upper_right, arc_lead, arcs, circle_lines, point_line, lines_to, route, stroke, path_lines, loop_lines, fill_lines, arrow_head_lines, item_lines, beginning, content_of};

use crate::chains::{pattern, phase_between, phase_of, with_tenth};
use crate::dashes::{Dashes, dashes_of, with_decimals};
use crate::page::{ArrowHead, Circle, Fill, Frame, Item, Label, Page, Pen, Rule};
use crate::pdf_words::add_words;
use crate::pens::{Pens, pens_of};
use exact_frac::OutOfMemory;
use sheet_plan::Mark;
use std::alloc::{AllocError, Global};
use stroke_paths::{Path, Point};

/// What is drawn on a page: its items in their order.
pub(crate) fn content(alloc: Global, page: &Page) -> Result<Vec<u8>, OutOfMemory>
    ensures { IfOk result (λ text. text.items ≡ content_of page.now) }
{
    let pens = pens_of(page.width, page.height);
    let mut text = Vec::new(alloc);
    text.extend_from_slice(beginning(alloc, page.height)?.as_bytes())?;
    for item in &page.items {
        add_item(alloc, &mut text, pens, item)?;
    }
    Ok(text)
}

/// From where and in which units all is drawn on a page of this height: PDF counts in points, from the lower edge up.
fn beginning(alloc: Global, height: i64) -> Result<String, AllocError>
    ensures { IfOk result (λ text. string_bytes text ≡ beginning height) }
{
    let points = points(alloc, height)?;
    format!(in alloc; "0.0283464567 0 0 -0.0283464567 0 {points} cm\n0 G 0 g 1 j\n")
}

/// A length in points.
pub(crate) fn points(alloc: Global, length: i64) -> Result<String, AllocError>
    ensures { IfOk result (λ text. string_bytes text ≡ points length) }
{
    let n = (72_000 * u128::from(length.unsigned_abs()) + 127) / 254;
    let whole = n / 10_000;
    let (first, second) = (n / 1000 % 10, n / 100 % 10);
    let (third, fourth) = (n / 10 % 10, n % 10);
    format!(in alloc; "{whole}.{first}{second}{third}{fourth}")
}

/// Adds an item.
fn add_item(alloc: Global, text: &mut Vec<u8>, pens: Pens, item: &Item) -> Result<(), OutOfMemory>
    ensures { OnOk result (text.new.items ≡ text.old.items ++ item_lines pens item.now) }
{
    match item {
        Item::Frame(frame) => text.extend_from_slice(frame_line(alloc, frame)?.as_bytes())?,
        Item::Rule(rule) => add_rule(alloc, text, pens, rule)?,
        Item::Circle(circle) => add_circle(alloc, text, circle)?,
        Item::Label(label) => add_label(alloc, text, label)?,
        Item::Path(path) => add_path(alloc, text, pens, path)?,
        Item::Fill(fill) => add_fill(alloc, text, fill)?,
        Item::ArrowHead(head) => add_arrow_head(alloc, text, head)?,
    }
    Ok(())
}

/// Adds the lines of a black area.
fn add_fill(alloc: Global, text: &mut Vec<u8>, fill: &Fill) -> Result<(), OutOfMemory>
    ensures { OnOk result (text.new.items ≡ text.old.items ++ fill_lines fill.now) }
{
    add_loops(alloc, text, fill.loops.as_slice())?;
    text.extend_from_slice("f*\n".as_bytes())?;
    Ok(())
}

/// Adds the lines of an arrow's head.
fn add_arrow_head(alloc: Global, text: &mut Vec<u8>, head: &ArrowHead) -> Result<(), OutOfMemory>
    ensures { OnOk result (text.new.items ≡ text.old.items ++ arrow_head_lines head.now) }
{
    add_loop(alloc, text, &[head.tip, head.left, head.right])?;
    text.extend_from_slice("f*\n".as_bytes())?;
    Ok(())
}

/// Adds the lines of loops.
fn add_loops(alloc: Global, text: &mut Vec<u8>, loops: &[Vec<Point>]) -> Result<(), OutOfMemory>
    ensures { OnOk result (text.new.items ≡ text.old.items ++ flat_map loop_lines loops.now) }
{
    for points in loops {
        add_loop(alloc, text, points.as_slice())?;
    }
    Ok(())
}

/// Adds the lines of a loop.
fn add_loop(alloc: Global, text: &mut Vec<u8>, points: &[Point]) -> Result<(), OutOfMemory>
    ensures { OnOk result (text.new.items ≡ text.old.items ++ (route points.now ++ codes "h\n")) }
{
    add_route(alloc, text, points)?;
    text.extend_from_slice("h\n".as_bytes())?;
    Ok(())
}

/// The pen of chain lines, so far into its pattern, in thousandths of a millimetre.
fn chain_pen(alloc: Global, pens: Pens, n: u128) -> Result<String, AllocError>
    ensures { IfOk result (λ text. string_bytes text ≡ chain_pen pens n) }
{
    let width = pens.narrow();
    let pattern = pattern(alloc, pens)?;
    let n = with_tenth(alloc, n)?;
    format!(in alloc; "{width} w 0 J [{pattern}] {n} d\n")
}

/// The pen of a rule.
fn rule_pen(alloc: Global, pens: Pens, rule: &Rule) -> Result<String, AllocError>
    ensures { IfOk result (λ text. string_bytes text ≡ rule_pen pens rule.now.pen (phase_between pens rule.now.from rule.now.to)) }
{
    match rule.pen {
        Pen::Thin => String::from_str(alloc, "25 w 0 J [] 0 d\n"),
        Pen::Strong => String::from_str(alloc, "35 w 1 J [] 0 d\n"),
        Pen::Visible => visible_pen(alloc, pens.wide()),
        Pen::Chain => chain_pen(alloc, pens, phase_between(pens, &rule.from, &rule.to)),
    }
}

/// Adds the lines of a rule.
fn add_rule(alloc: Global, text: &mut Vec<u8>, pens: Pens, rule: &Rule) -> Result<(), OutOfMemory>
    ensures { OnOk result (text.new.items ≡ text.old.items ++ rule_lines pens rule.now) }
{
    text.extend_from_slice(rule_pen(alloc, pens, rule)?.as_bytes())?;
    text.extend_from_slice(point_line(alloc, &rule.from, " m\n")?.as_bytes())?;
    text.extend_from_slice(point_line(alloc, &rule.to, " l\n")?.as_bytes())?;
    text.extend_from_slice(stroke(false).as_bytes())?;
    Ok(())
}

/// The pen of a circle, its centre as the origin, and its right end, where it begins.
fn circle_start(alloc: Global, circle: &Circle) -> Result<String, AllocError>
    ensures { IfOk result (λ text. string_bytes text ≡ circle_start circle.now) }
{
    let (x, y, radius) = (circle.x, circle.y, circle.radius);
    format!(in alloc; "35 w 0 J [] 0 d q 1 0 0 1 {x} {y} cm\n{radius} 0 m ")
}

/// The first quarter of a circle around the origin, which goes from its right end down.
fn lower_right(alloc: Global, r: u32, k: u64) -> Result<String, AllocError>
    ensures { IfOk result (λ text. string_bytes text ≡ lower_right r k) }
{
    format!(in alloc; "{r} {k} {k} {r} 0 {r} c ")
}

/// The second quarter.
fn lower_left(alloc: Global, r: u32, k: u64) -> Result<String, AllocError>
    ensures { IfOk result (λ text. string_bytes text ≡ lower_left r k) }
{
    format!(in alloc; "-{k} {r} -{r} {k} -{r} 0 c\n")
}

/// The third quarter.
fn upper_left(alloc: Global, r: u32, k: u64) -> Result<String, AllocError>
    ensures { IfOk result (λ text. string_bytes text ≡ upper_left r k) }
{
    format!(in alloc; "-{r} -{k} -{k} -{r} 0 -{r} c ")
}

/// The last quarter, and that the circle is drawn.
fn upper_right(alloc: Global, r: u32, k: u64) -> Result<String, AllocError>
    ensures { IfOk result (λ text. string_bytes text ≡ upper_right r k) }
{
    format!(in alloc; "{k} -{r} {r} -{k} {r} 0 c h S Q\n")
}

/// How far the points that lead an arc are beside its ends.
fn arc_lead(radius: u32) -> u64
    ensures { result ≡ arc_lead radius }
{
    u64::from(radius) * 5523 / 10_000
}

/// Adds the lines of a circle.
fn add_circle(alloc: Global, text: &mut Vec<u8>, circle: &Circle) -> Result<(), OutOfMemory>
    ensures { OnOk result (text.new.items ≡ text.old.items ++ circle_lines circle.now) }
{
    text.extend_from_slice(circle_start(alloc, circle)?.as_bytes())?;
    add_arcs(alloc, text, circle.radius, arc_lead(circle.radius))
}

/// Adds the four quarters of a circle.
fn add_arcs(alloc: Global, text: &mut Vec<u8>, r: u32, k: u64) -> Result<(), OutOfMemory>
    ensures { OnOk result (text.new.items ≡ text.old.items ++ arcs r k) }
{
    text.extend_from_slice(lower_right(alloc, r, k)?.as_bytes())?;
    text.extend_from_slice(lower_left(alloc, r, k)?.as_bytes())?;
    text.extend_from_slice(upper_left(alloc, r, k)?.as_bytes())?;
    text.extend_from_slice(upper_right(alloc, r, k)?.as_bytes())?;
    Ok(())
}

/// The line of a rectangle.
fn frame_line(alloc: Global, frame: &Frame) -> Result<String, AllocError>
    ensures { IfOk result (λ text. string_bytes text ≡ frame_line frame.now) }
{
    let (x, y) = (frame.x, frame.y);
    let (width, height) = (frame.width, frame.height);
    format!(in alloc; "70 w 0 J [] 0 d {x} {y} {width} {height} re S\n")
}

/// Adds the line of a text.
fn add_label(alloc: Global, text: &mut Vec<u8>, label: &Label) -> Result<(), OutOfMemory>
    ensures { OnOk result (text.new.items ≡ text.old.items ++ label_line label.now) }
{
    text.extend_from_slice(before_words(alloc, label)?.as_bytes())?;
    add_words(text, label.text.as_str())?;
    text.extend_from_slice(") Tj ET\n".as_bytes())?;
    Ok(())
}

/// What stands before a text in its line.
fn before_words(alloc: Global, label: &Label) -> Result<String, AllocError>
    ensures { IfOk result (λ text. string_bytes text ≡ before_words label.now) }
{
    let (size, x, y) = (label.size, label.x, label.y);
    format!(in alloc; "BT /F1 {size} Tf 1 0 0 -1 {x} {y} Tm (")
}

/// Adds the lines of a path.
fn add_path(alloc: Global, text: &mut Vec<u8>, pens: Pens, path: &Path) -> Result<(), OutOfMemory>
    ensures { OnOk result (text.new.items ≡ text.old.items ++ path_lines pens path.now) }
{
    text.extend_from_slice(pen(alloc, pens, path)?.as_bytes())?;
    add_route(alloc, text, &path.points)?;
    text.extend_from_slice(stroke(path.closed).as_bytes())?;
    Ok(())
}

/// The pen of a path.
fn pen(alloc: Global, pens: Pens, path: &Path) -> Result<String, AllocError>
    ensures { IfOk result (λ text. string_bytes text ≡ pen pens path.now.mark (fitted pens path.now.closed (length_of path.now.closed path.now.points.items)) (phase_of pens path.now.points.items)) }
{
    match path.mark {
        Mark::Solid => visible_pen(alloc, pens.wide()),
        Mark::Dashed => dashed_pen(alloc, pens, dashes_of(path, pens)),
        Mark::Chain => chain_pen(alloc, pens, phase_of(pens, &path.points)),
        Mark::Hatch => plain_pen(alloc, pens.narrow()),
    }
}

/// The pen of visible lines, which has round ends.
fn visible_pen(alloc: Global, width: u32) -> Result<String, AllocError>
    ensures { IfOk result (λ text. string_bytes text ≡ decimal width ++ codes " w 1 J [] 0 d\n") }
{
    format!(in alloc; "{width} w 1 J [] 0 d\n")
}

/// The pen of a line without dashes.
fn plain_pen(alloc: Global, width: u32) -> Result<String, AllocError>
    ensures { IfOk result (λ text. string_bytes text ≡ decimal width ++ codes " w 0 J [] 0 d\n") }
{
    format!(in alloc; "{width} w 0 J [] 0 d\n")
}

/// The pen of a hidden path with these dashes.
fn dashed_pen(alloc: Global, pens: Pens, dashes: Option<Dashes>) -> Result<String, AllocError>
    ensures { IfOk result (λ text. string_bytes text ≡ dashed_pen pens dashes) }
{
    let width = pens.narrow();
    let Some(dashes) = dashes else {
        return plain_pen(alloc, width);
    };
    let dash = with_decimals(alloc, dashes.dash)?;
    let gap = with_decimals(alloc, dashes.gap)?;
    format!(in alloc; "{width} w 0 J [{dash} {gap}] 0 d\n")
}

/// Adds the lines from point to point.
fn add_route(alloc: Global, text: &mut Vec<u8>, points: &[Point]) -> Result<(), OutOfMemory>
    ensures { OnOk result (text.new.items ≡ text.old.items ++ route points.now) }
{
    let Some((first, rest)) = points.split_first() else {
        return Ok(());
    };
    text.extend_from_slice(point_line(alloc, first, " m\n")?.as_bytes())?;
    add_lines(alloc, text, rest)
}

/// Adds a line to each of these points.
fn add_lines(alloc: Global, text: &mut Vec<u8>, points: &[Point]) -> Result<(), OutOfMemory>
    ensures { OnOk result (text.new.items ≡ text.old.items ++ lines_to points.now) }
{
    for point in points {
        text.extend_from_slice(point_line(alloc, point, " l\n")?.as_bytes())?;
    }
    Ok(())
}

/// The line of a point.
fn point_line(alloc: Global, point: &Point, how: &str) -> Result<String, AllocError>
    ensures { IfOk result (λ text. string_bytes text ≡ point_line how.now point.now) }
{
    let (x, y) = (point.x, point.y);
    format!(in alloc; "{x} {y}{how}")
}

/// How a path ends: it is drawn, and a closed one goes back to its first point before.
fn stroke(closed: bool) -> &'static str
    ensures { result.now ≡ stroke closed }
{
    if closed { "h S\n" } else { "S\n" }
}
