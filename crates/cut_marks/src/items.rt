// The marks and headings of cuts on a page.
ghost use Rattle.std.specs.Prelude.{◌≡◌, ◌≤◌, ◌<◌, ◌^◌, ◌++◌, ◌∷◌, [], pos, ◌+ℤ◌, ◌-ℤ◌, unsigned_abs, IfOk, OnOk};
ghost use Rattle.std.specs.List.{flat_map};
ghost use Rattle.cut_marks.specs.MarkLetters.{half_of, width_of};
ghost use Rattle.cut_marks.specs.Ranges.{IsPlaceInRange, IsEndInRange, IsMarkInRange};
ghost use Rattle.cut_marks.specs.Items.{rule_to, text_at, heading_items, behind, is_upright, upright_head, level_head, head_at, point_of, head_item, arrow_items, letter_item, beside_items, end_items, items_of_mark, items_of_view, items_of_marks, title_at, IsHeadedWell, AreHeadedWell};

use crate::figures::{CutMark, MarkEnd, SheetPoint};
use crate::headings::add_heading;
use crate::mark_letters::{half_of, letter_text, width_of};
use crate::views::ViewMarks;
use dec_text::Name;
use exact_frac::OutOfMemory;
use length_text::LengthForm;
use sheet_page::{ArrowHead, Item, Label, Pen, Rule};
use std::alloc::Global;
use stroke_paths::Point;

/// The size of the letters of marks.
const MARK_SIZE: u32 = 500;

fn point_of(place: &SheetPoint) -> Point
    ensures { result ≡ point_of place.now }
{
    Point {
        x: place.x,
        y: place.y,
    }
}

/// A straight line from one place to another.
fn rule_to(pen: Pen, from: &SheetPoint, to: &SheetPoint) -> Item
    ensures { result ≡ rule_to pen from.now to.now }
{
    Item::Rule(Rule {
        pen,
        from: point_of(from),
        to: point_of(to),
    })
}

/// The number, less so much.
fn less(n: i64, by: u32) -> i64
    requires here { unsigned_abs n < 2 ^ 62 }
    requires near { by ≤ 250 }
    ensures { result ≡ n -ℤ pos by }
{
    n - i64::from(by)
}

/// A text of this width with its middle at this place.
fn text_at(
    alloc: Global,
    place: &SheetPoint,
    width: u32,
    size: u32,
    text: &str,
) -> Result<Item, OutOfMemory>
    requires here { unsigned_abs place.now.x < 2 ^ 62 }
    requires wide { width ≤ 1000 }
    requires large { size ≤ 500 }
    ensures { IfOk result (λ item. item ≡ text_at place.now width size text.now) }
{
    Ok(Item::Label(Label {
        x: less(place.x, half_of(width, size)),
        y: place.y,
        size,
        width: None,
        text: Name::new(alloc, text)?,
    }))
}

/// Behind the tip of an arrow that comes from the tail, as far as its head is long.
fn behind(tip: i64, tail: i64) -> i64
    requires { unsigned_abs tip < 2 ^ 62 }
    ensures { result ≡ behind tip tail }
{
    if tail < tip { tip - 300 } else { tip + 300 }
}

/// Beside the tip of an arrow.
fn beside(tip: i64, side: i64) -> i64
    requires here { unsigned_abs tip < 2 ^ 62 }
    requires near { unsigned_abs side ≤ 60 }
    ensures { result ≡ tip +ℤ side }
{
    tip + side
}

/// The arrow goes up or down.
fn is_upright(end: &MarkEnd) -> bool
    ensures { result ≡ is_upright end.now }
{
    end.tail.x == end.tip.x
}

/// A point of the base of its head, so far beside the arrow.
fn upright_head(end: &MarkEnd, side: i64) -> SheetPoint
    requires here { IsEndInRange end.now }
    requires near { unsigned_abs side ≤ 60 }
    ensures { result ≡ upright_head end.now side }
{
    SheetPoint {
        x: beside(end.tip.x, side),
        y: behind(end.tip.y, end.tail.y),
    }
}

/// The same of an arrow that goes to the left or to the right.
fn level_head(end: &MarkEnd, side: i64) -> SheetPoint
    requires here { IsEndInRange end.now }
    requires near { unsigned_abs side ≤ 60 }
    ensures { result ≡ level_head end.now side }
{
    SheetPoint {
        x: behind(end.tip.x, end.tail.x),
        y: beside(end.tip.y, side),
    }
}

/// A point of the base of an arrow's head, so far beside the arrow.
fn head_at(end: &MarkEnd, side: i64) -> SheetPoint
    requires here { IsEndInRange end.now }
    requires near { unsigned_abs side ≤ 60 }
    ensures { result ≡ head_at end.now side }
{
    if is_upright(end) {
        upright_head(end, side)
    } else {
        level_head(end, side)
    }
}

/// The head of an arrow.
fn head_item(end: &MarkEnd) -> Item
    requires { IsEndInRange end.now }
    ensures { result ≡ head_item end.now }
{
    Item::ArrowHead(ArrowHead {
        tip: point_of(&end.tip),
        left: point_of(&head_at(end, -55)),
        right: point_of(&head_at(end, 55)),
    })
}

/// Adds a strong end and its arrow.
fn add_arrow(items: &mut Vec<Item>, end: &MarkEnd) -> Result<(), OutOfMemory>
    requires { IsEndInRange end.now }
    ensures { OnOk result (items.new.items ≡ items.old.items ++ arrow_items end.now) }
{
    items.push(rule_to(Pen::Visible, &end.start, &end.tip))?;
    items.push(rule_to(Pen::Visible, &end.tail, &head_at(end, 0)))?;
    items.push(head_item(end))?;
    Ok(())
}

/// Adds a letter at an end of a mark.
fn add_letter(
    alloc: Global,
    items: &mut Vec<Item>,
    letter: u8,
    place: &SheetPoint,
) -> Result<(), OutOfMemory>
    requires { IsPlaceInRange place.now }
    ensures { OnOk result (items.new.items ≡ items.old.items ++ letter_item letter place.now ∷ []) }
{
    let text = letter_text(alloc, letter)?;
    items.push(text_at(alloc, place, width_of(letter), MARK_SIZE, text.as_str())?)?;
    Ok(())
}

/// Adds the letter that stands beside a mark's own, if there is one.
fn add_beside(
    alloc: Global,
    items: &mut Vec<Item>,
    beside: Option<u8>,
    place: &SheetPoint,
) -> Result<(), OutOfMemory>
    requires { IsPlaceInRange place.now }
    ensures { OnOk result (items.new.items ≡ items.old.items ++ beside_items beside place.now) }
{
    match beside {
        Some(letter) => add_letter(alloc, items, letter, place),
        None => Ok(()),
    }
}

/// Adds an end of a mark.
fn add_end(
    alloc: Global,
    items: &mut Vec<Item>,
    mark: &CutMark,
    end: &MarkEnd,
) -> Result<(), OutOfMemory>
    requires { IsEndInRange end.now }
    ensures { OnOk result (items.new.items ≡ items.old.items ++ end_items mark.now end.now) }
{
    add_arrow(items, end)?;
    add_letter(alloc, items, mark.letter, &end.letter)?;
    add_beside(alloc, items, mark.beside, &end.beside)?;
    Ok(())
}

/// Adds a mark.
fn add_mark(alloc: Global, items: &mut Vec<Item>, mark: &CutMark) -> Result<(), OutOfMemory>
    requires { IsMarkInRange mark.now }
    ensures { OnOk result (items.new.items ≡ items.old.items ++ items_of_mark mark.now) }
{
    items.push(rule_to(Pen::Chain, &mark.first.tip, &mark.second.tip))?;
    add_end(alloc, items, mark, &mark.first)?;
    add_end(alloc, items, mark, &mark.second)?;
    Ok(())
}

/// Adds the heading of a view with this title, if it has one.
fn add_headings(
    alloc: Global,
    items: &mut Vec<Item>,
    view: &ViewMarks,
    title: &str,
    form: LengthForm,
) -> Result<(), OutOfMemory>
    ensures items { OnOk result (items.new.items ≡ items.old.items ++ heading_items form.decimals form.unit view.now.heading title.now) }
    ensures well { OnOk result (IsHeadedWell form.decimals form.unit view.now title.now) }
{
    match &view.heading {
        Some(heading) => add_heading(alloc, items, heading, title, form),
        None => Ok(()),
    }
}

/// Adds what tells the cuts in a view with this title.
fn add_view(
    alloc: Global,
    items: &mut Vec<Item>,
    view: &ViewMarks,
    title: &str,
    form: LengthForm,
) -> Result<(), OutOfMemory>
    ensures items { OnOk result (items.new.items ≡ items.old.items ++ items_of_view form.decimals form.unit view.now title.now) }
    ensures well { OnOk result (IsHeadedWell form.decimals form.unit view.now title.now) }
{
    add_headings(alloc, items, view, title, form)?;
    for mark in &view.marks {
        add_mark(alloc, items, mark)?;
    }
    Ok(())
}

/// The title of the view with this number; it is empty if there is none.
fn title_at(titles: &[Name], view: usize) -> &str
    ensures { result.now ≡ title_at titles.now view }
{
    match titles.get(view) {
        Some(title) => title.as_str(),
        None => "",
    }
}

/// What tells the cuts on a page, view by view: for a heading a text, and for a mark a chain line from end to end and at each end an
/// arrow and a text. No path is among it. `titles` are those of the views, in their order; a view has none if its title is empty or if
/// there are fewer. `form` is how a heading says the place of its cut, which is in it whole or not at all. The time goes with the number
/// of marks and with the lengths of the titles.
pub fn mark_items(
    alloc: Global,
    views: &[ViewMarks],
    titles: &[Name],
    form: LengthForm,
) -> Result<Vec<Item>, OutOfMemory>
    ensures items { IfOk result (λ items. items.items ≡ items_of_marks form.decimals form.unit views.now titles.now) }
    ensures well { IfOk result (λ _. AreHeadedWell form.decimals form.unit views.now titles.now) }
{
    let mut items = Vec::new(alloc);
    for view in 0..views.len() {
        let title = title_at(titles, view);
        add_view(alloc, &mut items, &views[view], title, form)?;
    }
    Ok(items)
}
