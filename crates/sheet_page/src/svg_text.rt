// The text of a page as SVG.
ghost use Rattle.std.specs.Prelude.{◌≡◌, ◌<◌, ◌^◌, ◌++◌, pos, ◌≤ℤ◌, unsigned_abs, IfOk, OnOk, string_bytes};
ghost use Rattle.std.specs.List.{All, flat_map};
ghost use Rattle.sheet_page.specs.Chains.{phase_between, phase_of};
ghost use Rattle.sheet_page.specs.Dashes.{own_dashes};
ghost use Rattle.sheet_page.specs.Pages.{IsInView};
ghost use Rattle.sheet_page.specs.Looks.{rule_class};
ghost use Rattle.sheet_page.specs.Pens.{pens_of};
ghost use Rattle.sheet_page.specs.Svg.{classes, paper, ground, head, frame_line, dash_offset, rule_offset, rule_start, rule_line, circle_line, text_start, text_length, label_line, arrow_head_line, standing, dash_array, own_offset, to_point, route, path_line, loop_route, fill_line, drawn_in, group, group_start, path_start, svg_of};

use crate::chains::{pattern, phase_between, phase_of, with_tenth};
use crate::dashes::{Dashes, dashes_of, with_decimals};
use crate::page::{ArrowHead, Circle, Fill, Frame, Item, Label, Page, Pen, Rule};
use crate::pens::{Pens, pens_of};
use exact_frac::OutOfMemory;
use sheet_plan::Mark;
use std::alloc::{AllocError, Global};
use stroke_paths::{Path, Point};
use svg_page::{add_escaped, opening};

/// The text of a page in SVG (version 1.1): what is of no view, and for each view a group of its paths and areas, which
/// a program can show or hide. A hidden path's dashes are fitted to it. Each path and each area is of one of the page's views.
///
/// Goes over the items once for each view, and once more.
pub fn svg(alloc: Global, page: &Page) -> Result<Vec<u8>, OutOfMemory>
    requires { All (IsInView page.now.views) page.now.items.items }
    ensures { IfOk result (λ text. text.items ≡ svg_of page.now) }
{
    let pens = pens_of(page.width, page.height);
    let mut text = Vec::new(alloc);
    add_head(alloc, &mut text, page.width, page.height)?;
    add_standing(alloc, &mut text, pens, page.items.as_slice())?;
    for view in 0..page.views {
        add_group(alloc, &mut text, pens, view, page.items.as_slice())?;
    }
    text.extend_from_slice("</svg>\n".as_bytes())?;
    Ok(text)
}

/// Adds the beginning of a page.
fn add_head(alloc: Global, text: &mut Vec<u8>, width: i64, height: i64) -> Result<(), OutOfMemory>
    requires least_width { pos 4000 ≤ℤ width }
    requires least_height { pos 4000 ≤ℤ height }
    requires width_in_range { unsigned_abs width < 2 ^ 60 }
    requires height_in_range { unsigned_abs height < 2 ^ 60 }
    ensures { OnOk result (text.new.items ≡ text.old.items ++ head width height) }
{
    let (w, h) = (width.div_euclid(100), height.div_euclid(100));
    text.extend_from_slice(opening(alloc, w, h, width, height)?.as_bytes())?;
    text.extend_from_slice(paper(alloc, w, h)?.as_bytes())?;
    text.extend_from_slice(classes(alloc, pens_of(width, height))?.as_bytes())?;
    text.extend_from_slice(ground(alloc, width, height)?.as_bytes())?;
    Ok(())
}

/// How large a sheet of `w` by `h` millimetres is printed.
fn paper(alloc: Global, w: i64, h: i64) -> Result<String, AllocError>
    ensures { IfOk result (λ text. string_bytes text ≡ paper w h) }
{
    format!(in alloc; "<style>\n@page{{size:{w}mm {h}mm;margin:0}}\n")
}

/// How each class of lines is drawn.
fn classes(alloc: Global, pens: Pens) -> Result<String, AllocError>
    ensures { IfOk result (λ text. string_bytes text ≡ classes pens) }
{
    let (wide, narrow) = (pens.wide(), pens.narrow());
    let pattern = pattern(alloc, pens)?;
    format!(in alloc;
        "path,line,circle,.frame{{fill:none;stroke:black}}\n\
         text{{font-family:sans-serif}}\n\
         .frame{{stroke-width:70}}\n\
         .thin{{stroke-width:25}}\n\
         .strong{{stroke-width:35;stroke-linecap:round}}\n\
         .visible{{stroke-width:{wide};stroke-linecap:round;stroke-linejoin:round}}\n\
         .hidden{{stroke-width:{narrow};stroke-linejoin:round}}\n\
         .trace{{stroke-width:{narrow};stroke-linejoin:round;stroke-dasharray:{pattern}}}\n\
         .hatch{{stroke-width:{narrow}}}\n\
         .section{{fill:black;fill-rule:evenodd;stroke:none}}\n\
         </style>\n"
    )
}

/// The white ground of a page.
fn ground(alloc: Global, width: i64, height: i64) -> Result<String, AllocError>
    ensures { IfOk result (λ text. string_bytes text ≡ ground width height) }
{
    format!(in alloc; "<rect width=\"{width}\" height=\"{height}\" fill=\"white\"/>\n")
}

/// Adds whatever is no path and no area.
fn add_standing(
    alloc: Global,
    text: &mut Vec<u8>,
    pens: Pens,
    items: &[Item],
) -> Result<(), OutOfMemory>
    ensures { OnOk result (text.new.items ≡ text.old.items ++ flat_map (standing pens) items.now) }
{
    for item in items {
        match item {
            Item::Frame(frame) => {
                text.extend_from_slice(frame_line(alloc, frame)?.as_bytes())?;
            }
            Item::Rule(rule) => add_rule(alloc, text, pens, rule)?,
            Item::Circle(circle) => {
                text.extend_from_slice(circle_line(alloc, circle)?.as_bytes())?;
            }
            Item::Label(label) => add_label(alloc, text, label)?,
            Item::ArrowHead(head) => add_arrow_head(alloc, text, head)?,
            Item::Path(_) | Item::Fill(_) => {}
        }
    }
    Ok(())
}

/// The line of a frame.
fn frame_line(alloc: Global, frame: &Frame) -> Result<String, AllocError>
    ensures { IfOk result (λ text. string_bytes text ≡ frame_line frame.now) }
{
    let (x, y) = (frame.x, frame.y);
    let (width, height) = (frame.width, frame.height);
    format!(in alloc;
        "<rect class=\"frame\" x=\"{x}\" y=\"{y}\" width=\"{width}\" height=\"{height}\"/>\n"
    )
}

/// The class of a rule.
fn pen_class(pen: Pen) -> &'static str
    ensures { result.now ≡ rule_class pen }
{
    match pen {
        Pen::Thin => "thin",
        Pen::Strong => "strong",
        Pen::Visible => Mark::Solid.class(),
        Pen::Chain => Mark::Chain.class(),
    }
}

/// How far into its pattern a chain line begins.
fn dash_offset(alloc: Global, n: u128) -> Result<String, AllocError>
    ensures { IfOk result (λ text. string_bytes text ≡ dash_offset n) }
{
    let n = with_tenth(alloc, n)?;
    format!(in alloc; " stroke-dashoffset=\"{n}\"")
}

/// The same of a rule, where it is a chain line.
fn rule_offset(alloc: Global, pens: Pens, rule: &Rule) -> Result<String, AllocError>
    ensures { IfOk result (λ text. string_bytes text ≡ rule_offset pens rule.now) }
{
    match rule.pen {
        Pen::Thin | Pen::Strong | Pen::Visible => Ok(String::new(alloc)),
        Pen::Chain => dash_offset(alloc, phase_between(pens, &rule.from, &rule.to)),
    }
}

/// The beginning of the line of a rule.
fn rule_start(alloc: Global, rule: &Rule) -> Result<String, AllocError>
    ensures { IfOk result (λ text. string_bytes text ≡ rule_start rule.now) }
{
    let class = pen_class(rule.pen);
    let (x1, y1) = (rule.from.x, rule.from.y);
    let (x2, y2) = (rule.to.x, rule.to.y);
    format!(in alloc; "<line class=\"{class}\" x1=\"{x1}\" y1=\"{y1}\" x2=\"{x2}\" y2=\"{y2}\"")
}

/// Adds the line of a rule.
fn add_rule(alloc: Global, text: &mut Vec<u8>, pens: Pens, rule: &Rule) -> Result<(), OutOfMemory>
    ensures { OnOk result (text.new.items ≡ text.old.items ++ rule_line pens rule.now) }
{
    text.extend_from_slice(rule_start(alloc, rule)?.as_bytes())?;
    text.extend_from_slice(rule_offset(alloc, pens, rule)?.as_bytes())?;
    text.extend_from_slice("/>\n".as_bytes())?;
    Ok(())
}

/// The line of a circle.
fn circle_line(alloc: Global, circle: &Circle) -> Result<String, AllocError>
    ensures { IfOk result (λ text. string_bytes text ≡ circle_line circle.now) }
{
    let (x, y, radius) = (circle.x, circle.y, circle.radius);
    format!(in alloc; "<circle class=\"strong\" cx=\"{x}\" cy=\"{y}\" r=\"{radius}\"/>\n")
}

/// Adds the line of a text.
fn add_label(alloc: Global, text: &mut Vec<u8>, label: &Label) -> Result<(), OutOfMemory>
    ensures { OnOk result (text.new.items ≡ text.old.items ++ label_line label.now) }
{
    text.extend_from_slice(text_start(alloc, label)?.as_bytes())?;
    text.extend_from_slice(text_length(alloc, label.width)?.as_bytes())?;
    text.extend_from_slice(">".as_bytes())?;
    add_escaped(text, label.text.as_str())?;
    text.extend_from_slice("</text>\n".as_bytes())?;
    Ok(())
}

/// Where a text begins, and how large its letters are.
fn text_start(alloc: Global, label: &Label) -> Result<String, AllocError>
    ensures { IfOk result (λ text. string_bytes text ≡ text_start label.now) }
{
    let (x, y, size) = (label.x, label.y, label.size);
    format!(in alloc; "<text x=\"{x}\" y=\"{y}\" font-size=\"{size}\"")
}

/// How wide a viewer is to set a text, if that is told.
fn text_length(alloc: Global, width: Option<u32>) -> Result<String, AllocError>
    ensures { IfOk result (λ text. string_bytes text ≡ text_length width) }
{
    match width {
        Some(width) => {
            format!(in alloc; " textLength=\"{width}\" lengthAdjust=\"spacingAndGlyphs\"")
        }
        None => Ok(String::new(alloc)),
    }
}

/// Adds the line of an arrow's head.
fn add_arrow_head(alloc: Global, text: &mut Vec<u8>, head: &ArrowHead) -> Result<(), OutOfMemory>
    ensures { OnOk result (text.new.items ≡ text.old.items ++ arrow_head_line head.now) }
{
    text.extend_from_slice("<path class=\"section\" d=\"".as_bytes())?;
    add_route(alloc, text, true, &[head.tip, head.left, head.right])?;
    text.extend_from_slice("\"/>\n".as_bytes())?;
    Ok(())
}

/// Adds the group of a view.
fn add_group(
    alloc: Global,
    text: &mut Vec<u8>,
    pens: Pens,
    view: usize,
    items: &[Item],
) -> Result<(), OutOfMemory>
    ensures { OnOk result (text.new.items ≡ text.old.items ++ group pens view items.now) }
{
    text.extend_from_slice(group_start(alloc, view)?.as_bytes())?;
    for item in items {
        add_drawn(alloc, text, pens, view, item)?;
    }
    text.extend_from_slice("</g>\n".as_bytes())?;
    Ok(())
}

/// The beginning of the group of a view.
fn group_start(alloc: Global, view: usize) -> Result<String, AllocError>
    ensures { IfOk result (λ text. string_bytes text ≡ group_start view) }
{
    format!(in alloc; "<g id=\"view-{view}\">\n")
}

/// Adds the line of an item that is a path or an area of this view.
fn add_drawn(
    alloc: Global,
    text: &mut Vec<u8>,
    pens: Pens,
    view: usize,
    item: &Item,
) -> Result<(), OutOfMemory>
    ensures { OnOk result (text.new.items ≡ text.old.items ++ drawn_in pens view item.now) }
{
    match item {
        Item::Path(path) => {
            if path.view as usize == view {
                add_path(alloc, text, pens, path)?;
            }
        }
        Item::Fill(fill) => {
            if fill.view as usize == view {
                add_fill(alloc, text, fill)?;
            }
        }
        Item::Frame(_) | Item::Rule(_) | Item::Circle(_) | Item::Label(_) | Item::ArrowHead(_) => {}
    }
    Ok(())
}

/// Adds the line of an area.
fn add_fill(alloc: Global, text: &mut Vec<u8>, fill: &Fill) -> Result<(), OutOfMemory>
    ensures { OnOk result (text.new.items ≡ text.old.items ++ fill_line fill.now) }
{
    text.extend_from_slice("<path class=\"section\" d=\"".as_bytes())?;
    add_loops(alloc, text, fill.loops.as_slice())?;
    text.extend_from_slice("\"/>\n".as_bytes())?;
    Ok(())
}

/// Adds the points of loops.
fn add_loops(alloc: Global, text: &mut Vec<u8>, loops: &[Vec<Point>]) -> Result<(), OutOfMemory>
    ensures { OnOk result (text.new.items ≡ text.old.items ++ flat_map loop_route loops.now) }
{
    for points in loops {
        add_route(alloc, text, true, points.as_slice())?;
    }
    Ok(())
}

/// Adds the line of a path.
fn add_path(alloc: Global, text: &mut Vec<u8>, pens: Pens, path: &Path) -> Result<(), OutOfMemory>
    ensures { OnOk result (text.new.items ≡ text.old.items ++ path_line pens path.now) }
{
    text.extend_from_slice(path_start(alloc, path.mark)?.as_bytes())?;
    add_dashes(alloc, text, pens, path)?;
    add_offset(alloc, text, pens, path)?;
    text.extend_from_slice(" d=\"".as_bytes())?;
    add_route(alloc, text, path.closed, path.points.as_slice())?;
    text.extend_from_slice("\"/>\n".as_bytes())?;
    Ok(())
}

/// The beginning of the line of a path.
fn path_start(alloc: Global, mark: Mark) -> Result<String, AllocError>
    ensures { IfOk result (λ text. string_bytes text ≡ path_start mark) }
{
    let class = mark.class();
    format!(in alloc; "<path class=\"{class}\"")
}

/// Adds the dashes of a path, if it has some of its own.
fn add_dashes(alloc: Global, text: &mut Vec<u8>, pens: Pens, path: &Path) -> Result<(), OutOfMemory>
    ensures { OnOk result (text.new.items ≡ text.old.items ++ dash_array (own_dashes pens path.now.mark path.now.closed path.now.points.items)) }
{
    if let Mark::Dashed = path.mark {
        if let Some(dashes) = dashes_of(path, pens) {
            text.extend_from_slice(dash_array(alloc, &dashes)?.as_bytes())?;
        }
    }
    Ok(())
}

/// Adds a path's place in its pattern, if it is a chain line.
fn add_offset(alloc: Global, text: &mut Vec<u8>, pens: Pens, path: &Path) -> Result<(), OutOfMemory>
    ensures { OnOk result (text.new.items ≡ text.old.items ++ own_offset pens path.now.mark path.now.points.items) }
{
    if let Mark::Chain = path.mark {
        let offset = dash_offset(alloc, phase_of(pens, path.points.as_slice()))?;
        text.extend_from_slice(offset.as_bytes())?;
    }
    Ok(())
}

/// Dashes, in hundredths of a millimetre.
fn dash_array(alloc: Global, dashes: &Dashes) -> Result<String, AllocError>
    ensures { IfOk result (λ text. string_bytes text ≡ dash_array (Some dashes.now)) }
{
    let dash = with_decimals(alloc, dashes.dash)?;
    let gap = with_decimals(alloc, dashes.gap)?;
    let (dash, gap) = (dash.as_str(), gap.as_str());
    format!(in alloc; " stroke-dasharray=\"{dash} {gap}\"")
}

/// Adds the points of a path.
fn add_route(
    alloc: Global,
    text: &mut Vec<u8>,
    closed: bool,
    points: &[Point],
) -> Result<(), OutOfMemory>
    ensures { OnOk result (text.new.items ≡ text.old.items ++ route closed points.now) }
{
    let Some(first) = points.first() else {
        return Ok(());
    };
    text.extend_from_slice(to_point(alloc, "M", first)?.as_bytes())?;
    for point in &points[1..] {
        text.extend_from_slice(to_point(alloc, "L", point)?.as_bytes())?;
    }
    if closed {
        text.extend_from_slice("Z".as_bytes())?;
    }
    Ok(())
}

/// To a point, by this letter.
fn to_point(alloc: Global, letter: &str, point: &Point) -> Result<String, AllocError>
    ensures { IfOk result (λ text. string_bytes text ≡ to_point letter.now point.now) }
{
    let (x, y) = (point.x, point.y);
    format!(in alloc; "{letter}{x} {y}")
}
