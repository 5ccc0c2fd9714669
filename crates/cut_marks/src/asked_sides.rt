// How much room each view of a job asks for around its box.
ghost use Rattle.std.specs.Prelude.{◌≡◌, ◌<◌, ◌≤◌, pos, length, IfOk, Bool};
ghost use Rattle.std.specs.Ordering.{int_eq};
ghost use Rattle.lattice.specs.Cuts.{plane_of, toward_of};
ghost use Rattle.lattice.specs.Points.{of_dir};
ghost use Rattle.lattice.specs.Triple.{dot};
ghost use Rattle.cut_marks.specs.AskedSides.{asked_width, is_axial, lane_side, lanes_for, letter_at, looking, marked_sides, may_look, plain_heading, side_across, sides_for, sides_in, sides_of, wide_in};

use crate::figures::Heading;
use crate::heading_texts::front_text;
use crate::lanes::same;
use crate::letters::letter_of;
use crate::traces::{is_forward, is_upright, looks};
use exact_frac::OutOfMemory;
use job_file::{Job, cuts_in};
use lattice::{Cut, Dir, ViewSpec};
use length_text::LengthForm;
use sheet_layout::Sides;
use std::alloc::{AllocError, Global};
use text_fit::text_width;

/// 7.5 mm on each side of a view, and this width with both sides.
fn sides_in(width: u32) -> Sides
    ensures { result ≡ sides_in width }
{
    Sides {
        left: 750,
        right: 750,
        top: 750,
        bottom: 750,
        width,
    }
}

/// A heading with this letter, wherever it stands, of a cut that shows a section.
fn plain_heading(letter: u8, cut: &Cut) -> Heading
    ensures { result ≡ plain_heading letter (plane_of cut.now) }
{
    Heading {
        letter,
        axis: cut.axis(),
        at: cut.at(),
        x: 0,
        y: 0,
        room: 0,
        has_section: true,
    }
}

/// How wide a text is in letters of 5 mm, rounded up, but no wider than the widest sheet.
fn wide_in(text: &str) -> u32
    ensures value { result ≡ wide_in text.now }
    ensures size { result ≤ 118900 }
{
    ((text_width(text).min(237_800) * 500 + 999) / 1000) as u32
}

/// How wide the heading of a cut with this letter is, and 5 mm.
fn asked_width(alloc: Global, form: LengthForm, letter: u8, cut: &Cut) -> Result<u32, AllocError>
    ensures { IfOk result (λ width. width ≡ asked_width form.decimals form.unit letter (plane_of cut.now)) }
{
    let text = front_text(alloc, form, &plain_heading(letter, cut))?;
    Ok(500 + wide_in(text.as_str()))
}

fn is_nothing(a: i64) -> bool
    ensures { result ≡ int_eq a (pos 0) }
{
    a == 0
}

/// The direction is along an axis.
fn is_axial(d: &Dir) -> bool
    ensures { result ≡ is_axial (of_dir d.now) }
{
    let v = d.vector();
    let (x, y, z) = (is_nothing(v.x), is_nothing(v.y), is_nothing(v.z));
    (x && y) || ((x && z) || (y && z))
}

/// The cut's direction is across that of the view.
fn is_across(d: &Dir, cut: &Cut) -> bool
    ensures { result ≡ int_eq (dot (of_dir d.now) (toward_of (plane_of cut.now))) (pos 0) }
{
    d.vector().dot(&cut.dir().vector()) == 0
}

/// The view along `d` may have a trace of the cut, whose viewer looks this way.
fn may_look(d: &Dir, upright: bool, forward: bool, cut: &Cut) -> bool
    ensures { result ≡ may_look (of_dir d.now) upright forward cut.now }
{
    let way = looks(d, cut);
    (is_axial(d) && is_across(d, cut))
        && (same(upright, is_upright(way)) && same(forward, is_forward(way)))
}

/// How many cuts may.
fn looking(d: &Dir, upright: bool, forward: bool, cuts: &[Cut]) -> usize
    ensures value { result ≡ looking (of_dir d.now) upright forward cuts.now }
    ensures size { result ≤ length cuts.now }
{
    match cuts {
        [] => 0,
        [cut, rest @ ..] => {
            let here = if may_look(d, upright, forward, cut) {
                1
            } else {
                0
            };
            here + looking(d, upright, forward, rest)
        }
    }
}

/// How many lanes so many traces ask for, whose viewers look ahead, and so many whose viewers look back.
fn lanes_for(ahead: usize, back: usize) -> usize
    ensures value { result ≡ lanes_for ahead back }
    ensures size { result ≤ 3 }
{
    if ahead == 0 {
        return back.min(3);
    }
    if back == 0 { ahead.min(3) } else { 3 }
}

/// How wide a side is with so many lanes.
fn lane_side(lanes: usize) -> u32
    requires { lanes ≤ 3 }
    ensures { result ≡ lane_side lanes }
{
    if lanes == 0 {
        750
    } else {
        1000 + 620 * (lanes as u32 - 1)
    }
}

/// How wide the sides are where upright traces, or level ones, have their ends.
fn side_across(d: &Dir, upright: bool, cuts: &[Cut]) -> u32
    ensures { result ≡ side_across (of_dir d.now) upright cuts.now }
{
    let ahead = looking(d, upright, true, cuts);
    let back = looking(d, upright, false, cuts);
    lane_side(lanes_for(ahead, back))
}

/// What a plain view asks for with the marks of these cuts.
fn marked_sides(d: &Dir, cuts: &[Cut]) -> Sides
    ensures { result ≡ marked_sides (of_dir d.now) cuts.now }
{
    let across = side_across(d, false, cuts);
    let down = side_across(d, true, cuts);
    Sides {
        left: across,
        right: across,
        top: down,
        bottom: down,
        width: 0,
    }
}

/// What a view asks for that shows this, where so many cuts are shown before it.
fn sides_of(
    alloc: Global,
    form: LengthForm,
    cuts: &[Cut],
    number: usize,
    spec: &ViewSpec,
) -> Result<Sides, AllocError>
    requires { number < 12 }
    ensures { IfOk result (λ sides. sides ≡ sides_of form.decimals form.unit cuts.now number spec.now) }
{
    match spec {
        ViewSpec::Plain(d) => Ok(marked_sides(d, cuts)),
        ViewSpec::Section(cut) => Ok(sides_in(asked_width(alloc, form, letter_of(number), cut)?)),
    }
}

/// What each view of a job asks for around its box, in their order. A plain view asks for room for the marks that it may have: 10 mm above
/// and beneath for one upright trace, and to the left and to the right for a level one; 6.2 mm more for a second one and for a third; and
/// as for three where their viewers look both ways. All other sides are 7.5 mm. A cut view also asks to be as wide as its heading is in
/// letters of 5 mm, without its title, and 5 mm.
pub fn sides_for(alloc: Global, job: &Job) -> Result<Vec<Sides>, OutOfMemory>
    ensures sides { IfOk result (λ sides. sides.items ≡ sides_for job.now) }
    ensures count { IfOk result (λ sides. length sides.items ≡ length job.now.views.items) }
{
    let form = LengthForm {
        decimals: job.decimals,
        unit: job.unit,
    };
    let cuts = cuts_in(alloc, &job.views)?;
    let mut sides = Vec::new(alloc);
    let mut number = 0;
    for view in &job.views {
        sides.push(sides_of(alloc, form, &cuts, number, &view.spec)?)?;
        number += view.spec.cuts();
    }
    Ok(sides)
}
