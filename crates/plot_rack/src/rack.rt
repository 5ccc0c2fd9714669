// The plotters that a job names, taken from those that are handed in.
ghost use Rattle.std.specs.Prelude.{◌≡◌, ◌≢◌, ◌<◌, ◌^◌, ℕ, List, Some, None, IsSome, IfOk, IfErr, IfSome, IfNone, OnOk, OnErr, length, slice_get, option_map};
ghost use Rattle.std.specs.List.{AllPairs};
ghost use Rattle.std.specs.Str.{bytes_eq};
ghost use Rattle.plot_rack.specs.Choices.{first_with, AreChosen, IsPlotterRefused};
ghost use Rattle.plot_rack.specs.inner.Places.{IsFirstPlace};
ghost use Rattle.plot_rack.specs.Plotters.{begun, with_stroke, text_of, drawn, IsPartlyDrawn, AreDrawn, AreDrawnInPart};
ghost use Rattle.plot_rack.specs.declared.rack.RackError.TheVariants.{Memory};

use crate::Plotter;
use dec_text::Name;
use exact_frac::OutOfMemory;
use sheet_plan::Stroke;
use std::alloc::{AllocFailed, Global};

/// Why names choose no plotters.
#[derive(Clone, Copy, Debug, PartialEq, Eq)]
pub enum RackError {
    /// No plotter has the suffix of the name at this place.
    NoPlotter(u32),
    Memory(OutOfMemory),
}

impl<T: Drop> From<AllocFailed<T>> for RackError {
    ghost from_gives = { λ _ e. e ≡ Memory (record {}) };

    fn from(_: AllocFailed<T>) -> Self {
        RackError::Memory(OutOfMemory)
    }
}

/// Width and height of a page.
#[derive(Clone, Copy)]
struct Page {
    width: i64,
    height: i64,
}

/// Plotters in a row, fewer than 2^32.
#[derive(Drop)]
pub struct Rack {
    boxes: Vec<Box<dyn Plotter>>,
    ghost few: { length boxes.items < 2 ^ 32 },
}

impl Rack {
    ghost use Rattle.plot_rack.specs.Racks.{boxes_of};

    /// For each name, in order, the first of these plotters with that suffix, as it was handed in. All others are dropped,
    /// and where a name has none, or memory runs out, all are. The time goes with the product of the two numbers.
    pub fn choose(
        alloc: Global,
        mut boxes: Vec<Box<dyn Plotter>>,
        names: &[Name],
    ) -> Result<Rack, RackError>
        requires different { AllPairs (λ a b. a ≢ b) names.now }
        requires few { length names.now < 2 ^ 32 }
        ensures ok { IfOk result (λ rack. AreChosen (λ b. (plot b).suffix) boxes.items names.now (boxes_of rack)) }
        ensures err { IfErr result (IsPlotterRefused (λ b. (plot b).suffix) boxes.items names.now) }
    {
        let mut chosen = Vec::new(alloc);
        for (i, name) in names.iter().enumerate() {
            match take_first(&mut boxes, name.as_str()) {
                Some(plotter) => chosen.push(plotter)?,
                None => return Err(RackError::NoPlotter(i as u32)),
            }
        }
        Ok(Rack { boxes: chosen })
    }

    /// Draws a page of this width and height, in hundredths of a millimetre, with these strokes, in order, on each plotter.
    /// Where memory runs out, the plotters before some place have drawn all of it, the one at that place a part or nothing,
    /// and the later ones are as they were. Each plotter is called once for each stroke.
    pub fn draw(&mut self, width: i64, height: i64, strokes: &[Stroke]) -> Result<(), OutOfMemory>
        ensures ok { OnOk result (AreDrawn (λ b. plot b) (width, height) strokes.now (boxes_of self.old) (boxes_of self.new)) }
        ensures err { OnErr result (AreDrawnInPart (λ b. plot b) (width, height) strokes.now (boxes_of self.old) (boxes_of self.new)) }
    {
        draw_all(&mut self.boxes, &Page { width, height }, strokes)
    }

    /// How many plotters there are.
    pub fn len(&self) -> u32
        ensures { result ≡ length (boxes_of self.now) }
    {
        self.boxes.len() as u32
    }

    /// The suffix of the plotter at this place.
    pub fn suffix(&self, i: u32) -> &str
        requires { i < length (boxes_of self.now) }
        ensures { option_map (λ b. (plot b).suffix) (slice_get (boxes_of self.now) i) ≡ Some result.now }
    {
        suffix_of(&self.boxes[i as usize])
    }

    /// The bytes that the plotter at this place makes of its page and of the strokes there. It has begun a page.
    pub fn text(&self, i: u32) -> &[u8]
        requires within { i < length (boxes_of self.now) }
        requires begun { (b : _) → slice_get (boxes_of self.now) i ≡ Some b → IsSome (plot b).page }
        ensures { option_map (λ b. text_of (plot b)) (slice_get (boxes_of self.now) i) ≡ Some (Some result.now) }
    {
        text_of_box(&self.boxes[i as usize])
    }
}

/// The suffix of a plotter.
fn suffix_of(plotter: &Box<dyn Plotter>) -> &str
    ensures { result.now ≡ (plot plotter.now).suffix }
{
    plotter.suffix()
}

/// The plotter has this suffix.
fn has_suffix(plotter: &Box<dyn Plotter>, suffix: &str) -> bool
    ensures { result ≡ bytes_eq (plot plotter.now).suffix suffix.now }
{
    plotter.suffix() == suffix
}

/// The place of the first plotter with this suffix.
fn place_of(boxes: &[Box<dyn Plotter>], suffix: &str) -> Option<usize>
    ensures found { IfSome result (IsFirstPlace (λ b. (plot b).suffix) boxes.now suffix.now) }
    ensures missing { IfNone result (first_with (λ b. (plot b).suffix) boxes.now suffix.now ≡ None) }
{
    for (i, plotter) in boxes.iter().enumerate() {
        if has_suffix(plotter, suffix) {
            return Some(i);
        }
    }
    None
}

/// Takes out the first plotter with this suffix. For each other suffix the first plotter is the same as before.
fn take_first(boxes: &mut Vec<Box<dyn Plotter>>, suffix: &str) -> Option<Box<dyn Plotter>>
    ensures first { result ≡ first_with (λ b. (plot b).suffix) boxes.old.items suffix.now }
    ensures others { (other : List ℕ) → other ≢ suffix.now →
        first_with (λ b. (plot b).suffix) boxes.new.items other ≡ first_with (λ b. (plot b).suffix) boxes.old.items other }
{
    let place = place_of(boxes, suffix)?;
    Some(boxes.remove(place))
}

/// Begins a page on a plotter.
fn begin_on(plotter: &mut Box<dyn Plotter>, page: &Page) -> Result<(), OutOfMemory>
    ensures ok { OnOk result (plot plotter.new ≡ begun (page.now.width, page.now.height) (plot plotter.old)) }
    ensures err { OnErr result (plot plotter.new ≡ plot plotter.old) }
{
    plotter.page(page.width, page.height)
}

/// Gives a plotter one stroke.
fn stroke_on(plotter: &mut Box<dyn Plotter>, stroke: &Stroke) -> Result<(), OutOfMemory>
    requires { IsSome (plot plotter.old).page }
    ensures ok { OnOk result (plot plotter.new ≡ with_stroke stroke.now (plot plotter.old)) }
    ensures err { OnErr result (plot plotter.new ≡ plot plotter.old) }
{
    plotter.stroke(*stroke)
}

/// What a plotter makes of its page and strokes.
fn text_of_box(plotter: &Box<dyn Plotter>) -> &[u8]
    requires { IsSome (plot plotter.now).page }
    ensures { text_of (plot plotter.now) ≡ Some result.now }
{
    plotter.text()
}

/// Draws a page with its strokes on a plotter.
fn draw_on(
    plotter: &mut Box<dyn Plotter>,
    page: &Page,
    strokes: &[Stroke],
) -> Result<(), OutOfMemory>
    ensures ok { OnOk result (plot plotter.new ≡ drawn (page.now.width, page.now.height) strokes.now (plot plotter.old)) }
    ensures err { OnErr result (IsPartlyDrawn (page.now.width, page.now.height) strokes.now (plot plotter.old) (plot plotter.new)) }
{
    begin_on(plotter, page)?;
    for stroke in strokes {
        stroke_on(plotter, stroke)?;
    }
    Ok(())
}

/// Draws a page with its strokes on each of the plotters.
fn draw_all(
    boxes: &mut [Box<dyn Plotter>],
    page: &Page,
    strokes: &[Stroke],
) -> Result<(), OutOfMemory>
    ensures ok { OnOk result (AreDrawn (λ b. plot b) (page.now.width, page.now.height) strokes.now boxes.old boxes.new) }
    ensures err { OnErr result (AreDrawnInPart (λ b. plot b) (page.now.width, page.now.height) strokes.now boxes.old boxes.new) }
{
    for plotter in boxes.iter_mut() {
        draw_on(plotter, page, strokes)?;
    }
    Ok(())
}
