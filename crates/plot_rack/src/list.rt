// The plotter that lists its strokes.
ghost use Rattle.std.specs.Prelude.{◌≡◌, ◌++◌, IfOk, OnOk};
ghost use Rattle.std.specs.Option.{ForSome};
ghost use Rattle.std.specs.Fmt.{signed_decimal};
ghost use Rattle.exact_frac.specs.Frac.{IsLowest};
ghost use Rattle.plot_rack.specs.Lists.{column, frac_text, page_line, stroke_line, list_of};

use crate::Plotter;
use dec_text::{push_frac, push_int};
use exact_frac::{Frac, OutOfMemory};
use sheet_plan::Stroke;
use std::alloc::Global;

/// A list of the strokes, with the suffix `pieces`: a line `page {width} {height}`, and then for each stroke a line
/// `{view} {mark} {u1} {v1} {u2} {v2} {x1} {y1} {x2} {y2}`. A mark is written by its word. U and V are fractions
/// in lowest terms, `n` where they are whole and else `n/d`.
#[derive(Drop)]
pub struct ListPlotter {
    alloc: Global,
    page: Option<(i64, i64)>,
    strokes: Vec<Stroke>,
    text: Vec<u8>,
    ghost written: { ForSome page (λ page. text.items ≡ list_of page strokes.items) },
}

impl ListPlotter {
    ghost use Rattle.std.specs.Prelude.{[], None};
    ghost use Rattle.plot_rack.specs.ListPlotter.{piece_list, plot_of};

    /// A list without a page. Takes no memory.
    pub fn new(alloc: Global) -> ListPlotter
        ensures { plot_of result ≡ piece_list None [] }
    {
        ListPlotter {
            alloc,
            page: None,
            strokes: Vec::new(alloc),
            text: Vec::new(alloc),
        }
    }
}

impl Plotter for ListPlotter {
    ghost use Rattle.plot_rack.specs.ListPlotter.{plot_of};

    ghost plot = { plot_of };

    fn suffix(&self) -> &str {
        "pieces"
    }

    fn page(&mut self, width: i64, height: i64) -> Result<(), OutOfMemory> {
        let line = line_of_page(self.alloc, width, height)?;
        self.page = Some((width, height));
        self.strokes.clear();
        self.text = line;
        Ok(())
    }

    /// The time goes with the length of the line, and now and then the list is moved to a larger place.
    fn stroke(&mut self, stroke: Stroke) -> Result<(), OutOfMemory> {
        let line = line_of_stroke(self.alloc, &stroke)?;
        self.strokes.reserve(1)?;
        self.text.extend_from_slice(&line)?;
        self.strokes.push(stroke)?;
        Ok(())
    }

    fn text(&self) -> &[u8] {
        &self.text
    }
}

/// The line of a page.
fn line_of_page(alloc: Global, width: i64, height: i64) -> Result<Vec<u8>, OutOfMemory>
    ensures { IfOk result (λ line. line.items ≡ page_line (width, height)) }
{
    let mut line = Vec::new(alloc);
    line.extend_from_slice("page".as_bytes())?;
    push_number(&mut line, width)?;
    push_number(&mut line, height)?;
    line.push(b'\n')?;
    Ok(line)
}

/// The line of a stroke.
fn line_of_stroke(alloc: Global, stroke: &Stroke) -> Result<Vec<u8>, OutOfMemory>
    ensures { IfOk result (λ line. line.items ≡ stroke_line stroke.now) }
{
    let mut line = Vec::new(alloc);
    push_int(&mut line, i128::from(stroke.view))?;
    push_text(&mut line, stroke.mark.word())?;
    push_fraction(&mut line, &stroke.u1)?;
    push_fraction(&mut line, &stroke.v1)?;
    push_fraction(&mut line, &stroke.u2)?;
    push_fraction(&mut line, &stroke.v2)?;
    push_number(&mut line, stroke.x1)?;
    push_number(&mut line, stroke.y1)?;
    push_number(&mut line, stroke.x2)?;
    push_number(&mut line, stroke.y2)?;
    line.push(b'\n')?;
    Ok(line)
}

/// Writes a text as one more column.
fn push_text(line: &mut Vec<u8>, text: &str) -> Result<(), OutOfMemory>
    ensures { OnOk result (line.new.items ≡ line.old.items ++ column text.now) }
{
    line.push(b' ')?;
    line.extend_from_slice(text.as_bytes())?;
    Ok(())
}

/// Writes a whole number as one more column.
fn push_number(line: &mut Vec<u8>, value: i64) -> Result<(), OutOfMemory>
    ensures { OnOk result (line.new.items ≡ line.old.items ++ column (signed_decimal value)) }
{
    line.push(b' ')?;
    push_int(line, i128::from(value))
}

/// Writes a fraction as one more column.
fn push_fraction(line: &mut Vec<u8>, value: &Frac) -> Result<(), OutOfMemory>
    requires { IsLowest value.now }
    ensures { OnOk result (line.new.items ≡ line.old.items ++ column (frac_text value.now)) }
{
    line.push(b' ')?;
    push_frac(line, value)
}
