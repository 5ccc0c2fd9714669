// A plotter that a caller brings, and which of two is taken.
ghost use Rattle.std.specs.Prelude.{◌≡◌, pos, length, IfOk};
ghost use Rattle.std.specs.Fmt.{signed_decimal};

use crate::runs::{desk_of, words_of};
use dec_text::push_int;
use draw_core::draw;
use exact_frac::OutOfMemory;
use plot_rack::{ListPlotter, Plotter};
use sheet_plan::Stroke;
use std::alloc::Global;
use std::test::Fail;
use test_fixtures::THIRDS_TEXT;

// A job of one front view, with a piece list.
const LISTED: &str = "outputs = [\"pieces\"]\n[[view]]\nname = \"front\"\n";

// The text of a number.
fn number_text(alloc: Global, number: usize) -> Result<Vec<u8>, OutOfMemory>
    ensures { IfOk result (λ text. text.items ≡ signed_decimal (pos number)) }
{
    let mut text = Vec::new(alloc);
    push_int(&mut text, number as i128)?;
    Ok(text)
}

// A plotter of a caller: its text is the number of its strokes.
#[derive(Drop)]
struct Counter {
    alloc: Global,
    page: Option<(i64, i64)>,
    strokes: Vec<Stroke>,
    text: Vec<u8>,
    ghost counted: { text.items ≡ signed_decimal (pos (length strokes.items)) },
}

impl Plotter for Counter {
    ghost use Rattle.std.specs.Prelude.{codes};

    ghost plot = { λ counter. record { suffix = codes "pieces"; page = counter.page; strokes = counter.strokes.items; paper = λ page strokes. signed_decimal (pos (length strokes)) } };

    fn suffix(&self) -> &str {
        "pieces"
    }

    fn page(&mut self, width: i64, height: i64) -> Result<(), OutOfMemory> {
        let text = number_text(self.alloc, 0)?;
        self.page = Some((width, height));
        self.strokes.clear();
        self.text = text;
        Ok(())
    }

    fn stroke(&mut self, stroke: Stroke) -> Result<(), OutOfMemory> {
        let text = number_text(self.alloc, self.strokes.len() + 1)?;
        self.strokes.push(stroke)?;
        self.text = text;
        Ok(())
    }

    fn text(&self) -> &[u8] {
        &self.text
    }
}

#[test]
fn the_first_plotter_of_a_suffix(rt: HostRuntime) -> Result<(), Fail> {
    let alloc = rt.alloc();
    let mut extras: Vec<Box<dyn Plotter>> = Vec::new(alloc);
    extras.push(Box::new(
        alloc,
        Counter {
            alloc,
            page: None,
            strokes: Vec::new(alloc),
            text: number_text(alloc, 0)?,
        },
    )?)?;
    extras.push(Box::new(alloc, ListPlotter::new(alloc))?)?;
    let mut desk = desk_of(alloc, THIRDS_TEXT, LISTED)?;
    let outcome = draw(alloc, &words_of(alloc, "--job j p")?, &mut desk, extras);
    assert_eq!(rt; outcome.status, 0);
    assert_eq!(rt;
        desk.file("drawing.pieces").ok_or("no text")?,
        b"9".as_slice()
    );
    Ok(())
}
