// The plotter that writes for CAD programs.
ghost use Rattle.std.specs.Prelude.{◌≡◌, codes, ◌++◌, string_bytes, IfOk};
ghost use Rattle.std.specs.Option.{ForSome};
ghost use Rattle.plot_rack.specs.Dxf.{sign_of, length_text, group, point_text, line_text, dxf_of};

use crate::Plotter;
use crate::paper::{height_of, push_before, upward, without_strokes};
use exact_frac::OutOfMemory;
use sheet_plan::Stroke;
use std::alloc::{AllocError, Global};

/// What stands after the last stroke.
const ENDING: &str = "0\nENDSEC\n0\nEOF\n";

/// A text for CAD programs, in the manner of DXF, with the suffix `dxf`: each group code and each value is a line. Between the
/// head and the end of its one section each stroke is a `LINE` on the layer of its mark, in millimetres with
/// two digits after the point; y goes up from the page's lower edge.
#[derive(Drop)]
pub struct DxfPlotter {
    alloc: Global,
    page: Option<(i64, i64)>,
    strokes: Vec<Stroke>,
    text: Vec<u8>,
    ghost written: { ForSome page (λ page. text.items ≡ dxf_of page strokes.items) },
}

impl DxfPlotter {
    ghost use Rattle.std.specs.Prelude.{[], None};
    ghost use Rattle.plot_rack.specs.DxfPlotter.{dxf, plot_of};

    /// A text without a page. Takes no memory.
    pub fn new(alloc: Global) -> DxfPlotter
        ensures { plot_of result ≡ dxf None [] }
    {
        DxfPlotter {
            alloc,
            page: None,
            strokes: Vec::new(alloc),
            text: Vec::new(alloc),
        }
    }
}

impl Plotter for DxfPlotter {
    ghost use Rattle.plot_rack.specs.DxfPlotter.{plot_of};

    ghost plot = { plot_of };

    fn suffix(&self) -> &str {
        "dxf"
    }

    fn page(&mut self, width: i64, height: i64) -> Result<(), OutOfMemory> {
        let text = without_strokes(self.alloc, "0\nSECTION\n2\nENTITIES\n", ENDING)?;
        self.page = Some((width, height));
        self.strokes.clear();
        self.text = text;
        Ok(())
    }

    /// The time goes with the length of the stroke's text, and now and then the text is moved to a larger place.
    fn stroke(&mut self, stroke: Stroke) -> Result<(), OutOfMemory> {
        let height = height_of(self.page);
        let more = line_of(self.alloc, height, &stroke)?;
        self.strokes.reserve(1)?;
        push_before(&mut self.text, &more, ENDING)?;
        self.strokes.push(stroke)?;
        Ok(())
    }

    fn text(&self) -> &[u8] {
        &self.text
    }
}

/// The sign of a length.
fn sign_of(length: i128) -> &'static str
    ensures { result.now ≡ sign_of length }
{
    if length < 0 { "-" } else { "" }
}

/// A length in hundredths of a millimetre, as a text in millimetres.
fn length_text(alloc: Global, length: i128) -> Result<String, AllocError>
    ensures { IfOk result (λ text. string_bytes text ≡ length_text length) }
{
    let (sign, size) = (sign_of(length), length.unsigned_abs());
    let (whole, tenths, hundredths) = (size / 100, size / 10 % 10, size % 10);
    format!(in alloc; "{sign}{whole}.{tenths}{hundredths}")
}

/// A group code and its value.
fn group(alloc: Global, code: &str, value: &str) -> Result<String, AllocError>
    ensures { IfOk result (λ text. string_bytes text ≡ group code.now value.now) }
{
    format!(in alloc; "{code}\n{value}\n")
}

/// The point of a page of this height that is `x` to the right and `y` down, by the codes of its two lengths.
fn point_of(
    alloc: Global,
    across_code: &str,
    upward_code: &str,
    height: i64,
    x: i64,
    y: i64,
) -> Result<String, AllocError>
    ensures { IfOk result (λ text. string_bytes text ≡ point_text across_code.now upward_code.now height x y) }
{
    let across = group(alloc, across_code, &length_text(alloc, i128::from(x))?)?;
    let up = group(alloc, upward_code, &length_text(alloc, upward(height, y))?)?;
    format!(in alloc; "{across}{up}")
}

/// The line of a stroke on a page of this height.
fn line_of(alloc: Global, height: i64, stroke: &Stroke) -> Result<String, AllocError>
    ensures { IfOk result (λ text. string_bytes text ≡ line_text height stroke.now) }
{
    let layer = group(alloc, "8", stroke.mark.layer())?;
    let from = point_of(alloc, "10", "20", height, stroke.x1, stroke.y1)?;
    let to = point_of(alloc, "11", "21", height, stroke.x2, stroke.y2)?;
    format!(in alloc; "0\nLINE\n{layer}{from}{to}")
}
