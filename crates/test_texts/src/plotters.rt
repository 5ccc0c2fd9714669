// Plotters that a test brings: which of them are taken, and when the others are dropped.
ghost use Rattle.std.specs.Prelude.{◌≡◌, pos, length, IfOk};
ghost use Rattle.std.specs.Fmt.{signed_decimal};

use dec_text::{Name, push_int};
use exact_frac::{Frac, OutOfMemory};
use plot_rack::{DxfPlotter, HpglPlotter, ListPlotter, Plotter, Rack, RackError};
use sheet_plan::{Mark, Stroke};
use std::alloc::Global;
use std::cell::Cell;
use std::rc::Rc;
use std::test::Fail;

// The text of a number.
fn number_text(alloc: Global, number: usize) -> Result<Vec<u8>, OutOfMemory>
    ensures { IfOk result (λ text. text.items ≡ signed_decimal (pos number)) }
{
    let mut text = Vec::new(alloc);
    push_int(&mut text, number as i128)?;
    Ok(text)
}

// What became of a plotter: how many strokes it took, and whether it was dropped.
#[derive(Clone, Copy, PartialEq, Eq, Debug)]
struct Outcome {
    strokes: u32,
    dropped: bool,
}

// A plotter whose text is the number of its strokes. It marks its outcome.
struct Counter {
    alloc: Global,
    page: Option<(i64, i64)>,
    strokes: Vec<Stroke>,
    text: Vec<u8>,
    outcome: Rc<Cell<Outcome>>,
    ghost counted: { text.items ≡ signed_decimal (pos (length strokes.items)) },
}

impl Drop for Counter {
    fn drop(self) {
        let outcome = self.outcome.get();
        self.outcome.set(Outcome {
            strokes: outcome.strokes,
            dropped: true,
        });
        let Counter {
            alloc: _,
            page: _,
            strokes: _,
            text: _,
            outcome: _,
        } = self;
    }
}

impl Plotter for Counter {
    ghost use Rattle.std.specs.Prelude.{codes};

    ghost plot = { λ counter. record { suffix = codes "count"; page = counter.page; strokes = counter.strokes.items; paper = λ page strokes. signed_decimal (pos (length strokes)) } };

    fn suffix(&self) -> &str {
        "count"
    }

    fn page(&mut self, width: i64, height: i64) -> Result<(), OutOfMemory> {
        let text = number_text(self.alloc, 0)?;
        self.page = Some((width, height));
        self.strokes.clear();
        self.text = text;
        Ok(())
    }

    fn stroke(&mut self, stroke: Stroke) -> Result<(), OutOfMemory> {
        let text = number_text(self.alloc, self.strokes.len() + 1)?;
        self.strokes.push(stroke)?;
        self.text = text;
        let outcome = self.outcome.get();
        self.outcome.set(Outcome {
            strokes: outcome.strokes.saturating_add(1),
            dropped: outcome.dropped,
        });
        Ok(())
    }

    fn text(&self) -> &[u8] {
        &self.text
    }
}

impl Counter {
    fn new(alloc: Global, outcome: &Rc<Cell<Outcome>>) -> Result<Counter, OutOfMemory> {
        Ok(Counter {
            alloc,
            page: None,
            strokes: Vec::new(alloc),
            text: number_text(alloc, 0)?,
            outcome: Rc::clone(outcome)?,
        })
    }
}

fn new_outcome(alloc: Global) -> Result<Rc<Cell<Outcome>>, OutOfMemory> {
    let outcome = Outcome {
        strokes: 0,
        dropped: false,
    };
    Ok(Rc::new(alloc, Cell::new(outcome))?)
}

// A stroke of the first view.
fn stroke(mark: Mark) -> Stroke {
    let zero = Frac { num: 0, den: 1 }.reduce();
    Stroke {
        view: 0,
        mark,
        u1: zero,
        v1: zero,
        u2: zero,
        v2: zero,
        x1: 2000,
        y1: 4500,
        x2: 2000,
        y2: 3500,
    }
}

const DROPPED: Outcome = Outcome {
    strokes: 0,
    dropped: true,
};

// A list plotter, and two others with one suffix, which mark these outcomes.
fn three(
    alloc: Global,
    first: &Rc<Cell<Outcome>>,
    second: &Rc<Cell<Outcome>>,
) -> Result<Vec<Box<dyn Plotter>>, OutOfMemory> {
    let mut boxes: Vec<Box<dyn Plotter>> = Vec::new(alloc);
    boxes.push(Box::new(alloc, ListPlotter::new(alloc))?)?;
    boxes.push(Box::new(alloc, Counter::new(alloc, first)?)?)?;
    boxes.push(Box::new(alloc, Counter::new(alloc, second)?)?)?;
    Ok(boxes)
}

#[test]
fn the_first_of_a_suffix(rt: HostRuntime) -> Result<(), Fail> {
    let alloc = rt.alloc();
    let (first, second) = (new_outcome(alloc)?, new_outcome(alloc)?);
    let boxes = three(alloc, &first, &second)?;
    let strokes = [stroke(Mark::Solid), stroke(Mark::Hatch)];
    let text = text_by(alloc, boxes, "count", &strokes)?;
    assert!(rt; text.as_slice() == b"2".as_slice());
    assert!(rt; first.get().strokes == 2 && second.get() == DROPPED);
    Ok(())
}

#[test]
fn the_second_of_a_suffix_is_dropped(rt: HostRuntime) -> Result<(), Fail> {
    let alloc = rt.alloc();
    let (first, second) = (new_outcome(alloc)?, new_outcome(alloc)?);
    let names = [Name::new(alloc, "count")?];
    let rack = Rack::choose(alloc, three(alloc, &first, &second)?, &names)?;
    assert!(rt; rack.len() == 1);
    assert!(rt; second.get() == DROPPED && !first.get().dropped);
    assert!(rt; rack.suffix(0) == "count");
    drop(rack);
    assert!(rt; first.get() == DROPPED);
    Ok(())
}

// A plotter that marks this outcome.
fn one(alloc: Global, outcome: &Rc<Cell<Outcome>>) -> Result<Vec<Box<dyn Plotter>>, OutOfMemory> {
    let mut boxes: Vec<Box<dyn Plotter>> = Vec::new(alloc);
    boxes.push(Box::new(alloc, Counter::new(alloc, outcome)?)?)?;
    Ok(boxes)
}

#[test]
fn what_is_not_named_is_dropped(rt: HostRuntime) -> Result<(), Fail> {
    let alloc = rt.alloc();
    let handed_in = new_outcome(alloc)?;
    let mut rack = Rack::choose(alloc, one(alloc, &handed_in)?, &[])?;
    rack.draw(42000, 29700, &[stroke(Mark::Dashed)])?;
    assert!(rt; rack.len() == 0 && handed_in.get() == DROPPED);
    Ok(())
}

#[test]
fn a_name_without_a_plotter(rt: HostRuntime) -> Result<(), Fail> {
    let alloc = rt.alloc();
    let handed_in = new_outcome(alloc)?;
    let names = [Name::new(alloc, "count")?, Name::new(alloc, "mill")?];
    match Rack::choose(alloc, one(alloc, &handed_in)?, &names) {
        Err(fault) => assert!(rt; fault == RackError::NoPlotter(1)),
        Ok(_) => panic!(rt; "a plotter"),
    }
    assert!(rt; handed_in.get() == DROPPED);
    Ok(())
}

// Strokes with these ends on a page of 42,000 by 29,700: over all of it, next to its corners, and beyond its edges.
const STROKES: [(Mark, i64, i64, i64, i64); 8] = [
    (Mark::Solid, 0, 0, 42000, 29700),
    (Mark::Solid, 1, 29699, 2, 29698),
    (Mark::Dashed, 3, 29697, 4, 29696),
    (Mark::Dashed, -1, 29701, -2, 29702),
    (Mark::Chain, -3, 29703, -4, 29704),
    (Mark::Hatch, -5, 29705, -100, 29800),
    (Mark::Hatch, 99, 29601, 1000, 28700),
    (Mark::Solid, 42001, -1, 42002, -250),
];

const HPGL: &str =
    "IN;SP1;PU0,11880;PD16800,0;PU0,0;PD1,1;SP2;PU1,1;PD2,2;PU0,0;PD-1,-1;SP4;PU-1,-1;PD-2,-2;\
    SP3;PU-2,-2;PD-40,-40;PU40,40;PD400,400;SP1;PU16800,11880;PD16801,11980;PU0,0;\n";

const DXF: &str = "0\nSECTION\n2\nENTITIES\n\
    0\nLINE\n8\nSOLID\n10\n0.00\n20\n297.00\n11\n420.00\n21\n0.00\n\
    0\nLINE\n8\nSOLID\n10\n0.01\n20\n0.01\n11\n0.02\n21\n0.02\n\
    0\nLINE\n8\nDASHED\n10\n0.03\n20\n0.03\n11\n0.04\n21\n0.04\n\
    0\nLINE\n8\nDASHED\n10\n-0.01\n20\n-0.01\n11\n-0.02\n21\n-0.02\n\
    0\nLINE\n8\nCHAIN\n10\n-0.03\n20\n-0.03\n11\n-0.04\n21\n-0.04\n\
    0\nLINE\n8\nHATCH\n10\n-0.05\n20\n-0.05\n11\n-1.00\n21\n-1.00\n\
    0\nLINE\n8\nHATCH\n10\n0.99\n20\n0.99\n11\n10.00\n21\n10.00\n\
    0\nLINE\n8\nSOLID\n10\n420.01\n20\n297.01\n11\n420.02\n21\n299.50\n\
    0\nENDSEC\n0\nEOF\n";

fn drawn_strokes(alloc: Global) -> Result<Vec<Stroke>, OutOfMemory> {
    let mut strokes = Vec::new(alloc);
    for (mark, x1, y1, x2, y2) in STROKES {
        let mut drawn = stroke(mark);
        (drawn.x1, drawn.y1) = (x1, y1);
        (drawn.x2, drawn.y2) = (x2, y2);
        strokes.push(drawn)?;
    }
    Ok(strokes)
}

// What the plotter with this suffix makes of the strokes.
fn text_by(
    alloc: Global,
    boxes: Vec<Box<dyn Plotter>>,
    suffix: &str,
    strokes: &[Stroke],
) -> Result<Vec<u8>, Fail> {
    let names = [Name::new(alloc, suffix)?];
    let mut rack = Rack::choose(alloc, boxes, &names)?;
    rack.draw(42000, 29700, strokes)?;
    Ok(rack.text(0).to_vec(alloc)?)
}

// The plotters of HP-GL and of DXF.
fn plotters(alloc: Global) -> Result<Vec<Box<dyn Plotter>>, OutOfMemory> {
    let mut boxes: Vec<Box<dyn Plotter>> = Vec::new(alloc);
    boxes.push(Box::new(alloc, HpglPlotter::new(alloc))?)?;
    boxes.push(Box::new(alloc, DxfPlotter::new(alloc))?)?;
    Ok(boxes)
}

// The plotter with this suffix makes this text of the strokes.
fn makes(alloc: Global, suffix: &str, strokes: &[Stroke], text: &str) -> Result<bool, Fail> {
    let found = text_by(alloc, plotters(alloc)?, suffix, strokes)?;
    Ok(found.as_slice() == text.as_bytes())
}

#[test]
fn hpgl_and_dxf(rt: HostRuntime) -> Result<(), Fail> {
    let alloc = rt.alloc();
    let strokes = drawn_strokes(alloc)?;
    assert!(rt; makes(alloc, "hpgl", &strokes, HPGL)?);
    assert!(rt; makes(alloc, "dxf", &strokes, DXF)?);
    assert!(rt; makes(alloc, "hpgl", &[], "IN;PU0,0;\n")?);
    let none = "0\nSECTION\n2\nENTITIES\n0\nENDSEC\n0\nEOF\n";
    assert!(rt; makes(alloc, "dxf", &[], none)?);
    Ok(())
}
