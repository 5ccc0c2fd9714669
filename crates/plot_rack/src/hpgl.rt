// The plotter that writes for pen plotters.
ghost use Rattle.std.specs.Prelude.{◌≡◌, ◌<◌, ◌^◌, unsigned_abs, [], ◌++◌, codes, if◌then◌else◌, None, string_bytes, IfOk};
ghost use Rattle.std.specs.Option.{ForSome};
ghost use Rattle.plot_rack.specs.Hpgl.{pen_text, units_of, point_text, choice_text, move_text, hpgl_of};
ghost use Rattle.plot_rack.specs.inner.Marks.{last_mark};

use crate::Plotter;
use crate::paper::{height_of, push_before, upward, without_strokes};
use exact_frac::{OutOfMemory, round_half_up};
use sheet_plan::{Mark, Stroke};
use std::alloc::{AllocError, Global};

/// What stands after the last stroke: the pen is up, and moves to the page's lower left corner.
const ENDING: &str = "PU0,0;\n";

/// A text for pen plotters, in the manner of HP-GL, with the suffix `hpgl`: one line of `IN;`, then for each stroke `SP{pen};` where it
/// is the first or its pen isn't that of the stroke before, and `PU{x1},{y1};PD{x2},{y2};`, and last `PU0,0;`. Each mark has a pen
/// of its own. Lengths are in units of 0.025 mm, each rounded to the nearest, and halves
/// up; y goes up from the page's lower edge.
#[derive(Drop)]
pub struct HpglPlotter {
    alloc: Global,
    page: Option<(i64, i64)>,
    strokes: Vec<Stroke>,
    text: Vec<u8>,
    ghost written: { ForSome page (λ page. text.items ≡ hpgl_of page strokes.items) },
}

impl HpglPlotter {
    ghost use Rattle.plot_rack.specs.HpglPlotter.{hpgl, plot_of};

    /// A text without a page. Takes no memory.
    pub fn new(alloc: Global) -> HpglPlotter
        ensures { plot_of result ≡ hpgl None [] }
    {
        HpglPlotter {
            alloc,
            page: None,
            strokes: Vec::new(alloc),
            text: Vec::new(alloc),
        }
    }
}

impl Plotter for HpglPlotter {
    ghost use Rattle.plot_rack.specs.HpglPlotter.{plot_of};

    ghost plot = { plot_of };

    fn suffix(&self) -> &str {
        "hpgl"
    }

    fn page(&mut self, width: i64, height: i64) -> Result<(), OutOfMemory> {
        let text = without_strokes(self.alloc, "IN;", ENDING)?;
        self.page = Some((width, height));
        self.strokes.clear();
        self.text = text;
        Ok(())
    }

    /// The time goes with the length of the stroke's text, and now and then the text is moved to a larger place.
    fn stroke(&mut self, stroke: Stroke) -> Result<(), OutOfMemory> {
        let height = height_of(self.page);
        let more = next_move(self.alloc, height, last_mark(&self.strokes), &stroke)?;
        self.strokes.reserve(1)?;
        push_before(&mut self.text, &more, ENDING)?;
        self.strokes.push(stroke)?;
        Ok(())
    }

    fn text(&self) -> &[u8] {
        &self.text
    }
}

/// The mark of the last stroke.
#[tactic(auto, using(crate::proofs::Endings::mark_of_last))]
fn last_mark(strokes: &[Stroke]) -> Option<Mark>
    ensures { result ≡ last_mark None strokes.now }
{
    strokes.last().map(|stroke| stroke.mark)
}

/// The pen for a mark is that of the mark of the stroke before.
fn is_chosen(before: Option<Mark>, mark: Mark) -> bool
    ensures { choice_text before mark ≡ (if result then [] else pen_text mark) }
{
    match before {
        Some(before) => before.pen() == mark.pen(),
        None => false,
    }
}

/// A length in hundredths of a millimetre, in units of 0.025 mm.
fn units_of(length: i128) -> i128
    requires { unsigned_abs length < 2 ^ 100 }
    ensures { result ≡ units_of length }
{
    round_half_up(2 * length, 5)
}

/// The point of a page of this height that is `x` to the right and `y` down.
fn point_of(alloc: Global, height: i64, x: i64, y: i64) -> Result<String, AllocError>
    ensures { IfOk result (λ text. string_bytes text ≡ point_text height x y) }
{
    let across = units_of(i128::from(x));
    let up = units_of(upward(height, y));
    format!(in alloc; "{across},{up}")
}

/// The moves of a stroke on a page of this height.
fn move_of(alloc: Global, height: i64, stroke: &Stroke) -> Result<String, AllocError>
    ensures { IfOk result (λ text. string_bytes text ≡ move_text height stroke.now) }
{
    let from = point_of(alloc, height, stroke.x1, stroke.y1)?;
    let to = point_of(alloc, height, stroke.x2, stroke.y2)?;
    format!(in alloc; "PU{from};PD{to};")
}

/// The choice of the pen for a mark, where the stroke before has another, or there is none.
fn choice_of(alloc: Global, before: Option<Mark>, mark: Mark) -> Result<String, AllocError>
    ensures { IfOk result (λ text. string_bytes text ≡ choice_text before mark) }
{
    if is_chosen(before, mark) {
        return Ok(String::new(alloc));
    }
    let pen = mark.pen();
    format!(in alloc; "SP{pen};")
}

/// The moves of a stroke after one of this mark, or after none, with the choice of its pen where that is another.
fn next_move(
    alloc: Global,
    height: i64,
    before: Option<Mark>,
    stroke: &Stroke,
) -> Result<String, AllocError>
    ensures { IfOk result (λ text. string_bytes text ≡ choice_text before stroke.now.mark ++ move_text height stroke.now) }
{
    let choice = choice_of(alloc, before, stroke.mark)?;
    let moves = move_of(alloc, height, stroke)?;
    format!(in alloc; "{choice}{moves}")
}
