// The text of a page with a rule of each pen, a circle, a black area and a chain line, in SVG and in PDF.
ghost use Rattle.std.specs.Prelude.{◌<◌, IfOk};
ghost use Rattle.std.specs.List.{All};
ghost use Rattle.sheet_page.specs.Pages.{IsInView};

use dec_text::Name;
use exact_frac::OutOfMemory;
use sheet_page::{Circle, Fill, Item, Page, Pen, Rule, pdf, svg};
use sheet_plan::Mark;
use std::alloc::Global;
use std::test::Fail;
use stroke_paths::{Path, Point};

// The page fits A4, so a chain line is 432.0, 54.0, 9.0, 54.0 again and again, 549.0 in all: 1000 is 451.0 beyond a multiple of that. The
// third rule goes the other way on it, from 9000, 216.0 beyond a multiple, and 432.0 - 216.0 is 216.0. So both have the same dashes.
const AS_SVG: &str = "<?xml version=\"1.0\" encoding=\"UTF-8\"?>\n\
     <svg xmlns=\"http://www.w3.org/2000/svg\" width=\"100mm\" height=\"50mm\" viewBox=\"0 0 10000 5000\">\n\
     <style>\n\
     @page{size:100mm 50mm;margin:0}\n\
     path,line,circle,.frame{fill:none;stroke:black}\n\
     text{font-family:sans-serif}\n\
     .frame{stroke-width:70}\n\
     .thin{stroke-width:25}\n\
     .strong{stroke-width:35;stroke-linecap:round}\n\
     .visible{stroke-width:35;stroke-linecap:round;stroke-linejoin:round}\n\
     .hidden{stroke-width:18;stroke-linejoin:round}\n\
     .trace{stroke-width:18;stroke-linejoin:round;stroke-dasharray:432.0 54.0 9.0 54.0}\n\
     .hatch{stroke-width:18}\n\
     .section{fill:black;fill-rule:evenodd;stroke:none}\n\
     </style>\n\
     <rect width=\"10000\" height=\"5000\" fill=\"white\"/>\n\
     <line class=\"thin\" x1=\"1000\" y1=\"1000\" x2=\"9000\" y2=\"1000\"/>\n\
     <line class=\"strong\" x1=\"1000\" y1=\"1000\" x2=\"1000\" y2=\"4000\"/>\n\
     <line class=\"trace\" x1=\"9000\" y1=\"2500\" x2=\"1000\" y2=\"2500\" stroke-dashoffset=\"216.0\"/>\n\
     <circle class=\"strong\" cx=\"5000\" cy=\"2500\" r=\"1000\"/>\n\
     <g id=\"view-0\">\n\
     <path class=\"section\" d=\"M2000 1500L3000 1500L3000 2000ZM2600 1600L2900 1600L2900 1750Z\"/>\n\
     <path class=\"trace\" stroke-dashoffset=\"451.0\" d=\"M1000 2500L9000 2500\"/>\n\
     </g>\n\
     </svg>\n";

// What the PDF has from its fourth object on, up to the fifth.
const AS_PDF: &str = "4 0 obj\n<< /Length 522 >>\nstream\n\
     0.0283464567 0 0 -0.0283464567 0 141.7323 cm\n\
     0 G 0 g 1 j\n\
     25 w 0 J [] 0 d\n1000 1000 m\n9000 1000 l\nS\n\
     35 w 1 J [] 0 d\n1000 1000 m\n1000 4000 l\nS\n\
     18 w 0 J [432.0 54.0 9.0 54.0] 216.0 d\n9000 2500 m\n1000 2500 l\nS\n\
     35 w 0 J [] 0 d q 1 0 0 1 5000 2500 cm\n\
     1000 0 m 1000 552 552 1000 0 1000 c -552 1000 -1000 552 -1000 0 c\n\
     -1000 -552 -552 -1000 0 -1000 c 552 -1000 1000 -552 1000 0 c h S Q\n\
     2000 1500 m\n3000 1500 l\n3000 2000 l\nh\n\
     2600 1600 m\n2900 1600 l\n2900 1750 l\nh\nf*\n\
     18 w 0 J [432.0 54.0 9.0 54.0] 451.0 d\n1000 2500 m\n9000 2500 l\nS\n\
     \nendstream\nendobj\n";

// Where the fourth object begins.
const FOURTH: usize = 257;

fn rule(pen: Pen, from: (i64, i64), to: (i64, i64)) -> Item
    ensures { IsInView 1 result }
{
    Item::Rule(Rule {
        pen,
        from: Point {
            x: from.0,
            y: from.1,
        },
        to: Point { x: to.0, y: to.1 },
    })
}

fn chain_line(alloc: Global) -> Result<Path, OutOfMemory>
    ensures { IfOk result (λ path. path.view < 1) }
{
    let mut points = Vec::new(alloc);
    points.push(Point { x: 1000, y: 2500 })?;
    points.push(Point { x: 9000, y: 2500 })?;
    Ok(Path {
        view: 0,
        mark: Mark::Chain,
        closed: false,
        points,
    })
}

// A loop through three points.
fn triangle(alloc: Global, places: [(i64, i64); 3]) -> Result<Vec<Point>, OutOfMemory> {
    let mut points = Vec::new(alloc);
    for place in &places {
        points.push(Point {
            x: place.0,
            y: place.1,
        })?;
    }
    Ok(points)
}

// A black triangle with a hole.
fn area(alloc: Global) -> Result<Fill, OutOfMemory>
    ensures { IfOk result (λ fill. fill.view < 1) }
{
    let mut loops = Vec::new(alloc);
    loops.push(triangle(alloc, [(2000, 1500), (3000, 1500), (3000, 2000)])?)?;
    loops.push(triangle(alloc, [(2600, 1600), (2900, 1600), (2900, 1750)])?)?;
    Ok(Fill { view: 0, loops })
}

fn items(alloc: Global) -> Result<Vec<Item>, OutOfMemory>
    ensures { IfOk result (λ items. All (IsInView 1) items.items) }
{
    let mut items = Vec::new(alloc);
    items.push(rule(Pen::Thin, (1000, 1000), (9000, 1000)))?;
    items.push(rule(Pen::Strong, (1000, 1000), (1000, 4000)))?;
    items.push(rule(Pen::Chain, (9000, 2500), (1000, 2500)))?;
    items.push(Item::Circle(Circle {
        x: 5000,
        y: 2500,
        radius: 1000,
    }))?;
    items.push(Item::Fill(area(alloc)?))?;
    items.push(Item::Path(chain_line(alloc)?))?;
    Ok(items)
}

fn page(alloc: Global) -> Result<Page, Fail>
    ensures { IfOk result (λ page. All (IsInView page.views) page.items.items) }
{
    Ok(Page {
        width: 10_000,
        height: 5000,
        title: Name::new(alloc, "")?,
        views: 1,
        items: items(alloc)?,
    })
}

// The text has this one at the place.
fn has_at(text: &[u8], place: usize, expected: &[u8]) -> bool {
    match place.checked_add(expected.len()) {
        Some(end) => text.get(place..end) == Some(expected),
        None => false,
    }
}

#[test]
fn rules_and_a_circle(rt: HostRuntime) -> Result<(), Fail> {
    let page = page(rt.alloc())?;
    let drawn = svg(rt.alloc(), &page)?;
    assert!(rt; drawn.as_slice() == AS_SVG.as_bytes());
    let printed = pdf(rt.alloc(), &page)?;
    assert!(rt; has_at(&printed, FOURTH, AS_PDF.as_bytes()));
    Ok(())
}
