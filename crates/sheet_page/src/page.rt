// What stands on a page.
ghost use Rattle.std.specs.Prelude.{◌≡◌, ◌<◌, ◌≤◌, ◌^◌, ◌%◌, pos, ◌≤ℤ◌, unsigned_abs};

use dec_text::Name;
use stroke_paths::{Path, Point};

/// A rectangle that is drawn, from its upper left corner.
#[derive(Clone, Copy, Debug)]
pub struct Frame {
    pub x: i64,
    pub y: i64,
    pub width: i64,
    pub height: i64,
}

/// A text that begins at a point, on its base line. `size` is that of its letters. A viewer of SVG is to set it as wide as `width` says,
/// if that is told, whatever font it has.
#[derive(Debug, Drop)]
pub struct Label {
    pub x: i64,
    pub y: i64,
    pub size: u32,
    pub width: Option<u32>,
    pub text: Name,
}

/// How a rule is drawn.
#[derive(Clone, Copy, PartialEq, Eq, Debug)]
pub enum Pen {
    /// A line of 0.25 mm.
    Thin,
    /// A line of 0.35 mm.
    Strong,
    /// A line as visible ones are.
    Visible,
    /// A chain line of 0.25 mm.
    Chain,
}

/// A straight line that is drawn, as one of a title block.
#[derive(Clone, Copy, Debug)]
pub struct Rule {
    pub pen: Pen,
    pub from: Point,
    pub to: Point,
}

/// A circle that is drawn, around a point, as a strong line.
#[derive(Clone, Copy, Debug)]
pub struct Circle {
    pub x: i64,
    pub y: i64,
    pub radius: u32,
}

/// An area of one of the page's views that is drawn black: what is inside an odd number of its loops. Each loop is closed: it goes from
/// its last point back to its first. An area is no path, and has no outline of its own.
#[derive(Debug, Drop)]
pub struct Fill {
    pub view: u32,
    pub loops: Vec<Vec<Point>>,
}

/// A black triangle, as the head of an arrow: its tip, and the two ends of its base.
#[derive(Clone, Copy, Debug)]
pub struct ArrowHead {
    pub tip: Point,
    pub left: Point,
    pub right: Point,
}

/// What stands on a page.
#[derive(Debug, Drop)]
pub enum Item {
    /// A rectangle, as that around a sheet.
    Frame(Frame),
    /// A straight line, as one of a title block.
    Rule(Rule),
    /// A circle, as in the symbol of an angle of projection.
    Circle(Circle),
    /// A text, as a sheet's title.
    Label(Label),
    /// A path of one of the page's views.
    Path(Path),
    /// A black area of one of the page's views, as a thin section.
    Fill(Fill),
    /// The head of an arrow.
    ArrowHead(ArrowHead),
}

/// A page: its name, the number of views that it shows, and what stands on it, in the order in which it is drawn. A PDF tells its
/// name to the program that opens it; what is to be read on the page is a label.
///
/// `width` and `height` are whole millimetres, at least 40 mm and below 2^60 hundredths.
#[derive(Drop)]
pub struct Page {
    pub width: i64,
    pub height: i64,
    pub title: Name,
    pub views: usize,
    pub items: Vec<Item>,
    ghost whole_width: { unsigned_abs width % 100 ≡ 0 },
    ghost whole_height: { unsigned_abs height % 100 ≡ 0 },
    ghost least_width: { pos 4000 ≤ℤ width },
    ghost least_height: { pos 4000 ≤ℤ height },
    ghost width_in_range: { unsigned_abs width < 2 ^ 60 },
    ghost height_in_range: { unsigned_abs height < 2 ^ 60 },
}
