// At which mark the letter of each trace stands, so that marks stand well.
ghost use Rattle.std.specs.Prelude.{◌≡◌, ◌++◌, ◌∷◌, [], map, find, None, Some, List, IfOk, IfSome, OnOk};
ghost use Rattle.std.specs.List.{list_any};
ghost use Rattle.cut_marks.specs.Traces.{is_upright, is_forward};
ghost use Rattle.cut_marks.specs.Lanes.{same, is_on_line, is_open, lettered, farther, pushed, with_own, own_ways, ways_of, stands, placed, AreLaned};

use crate::areas::{Area, box_area, none_crossed, stand_well};
use crate::figures::marks_in;
use crate::traces::{is_forward, is_upright};
use crate::ways::{Lane, Laned, Trace};
use exact_frac::OutOfMemory;
use sheet_plan::ViewBox;
use std::alloc::Global;

pub(crate) fn same(a: bool, b: bool) -> bool
    ensures { result ≡ same a b }
{
    if a { b } else { !b }
}

/// Two traces are on one line, and their cuts' viewers look in one way.
fn is_on_line(s: &Trace, t: &Trace) -> bool
    ensures { result ≡ is_on_line s.now t.now }
{
    same(is_upright(s.way), is_upright(t.way))
        && same(is_forward(s.way), is_forward(t.way))
        && (s.at - t.at).unsigned_abs() == 0
}

/// The mark is on the trace's line, and no second letter stands there.
fn is_open(entry: &Laned, trace: &Trace) -> bool
    ensures { result ≡ is_open trace.now entry.now }
{
    is_on_line(&entry.trace, trace) && !entry.beside.is_some()
}

/// One of the marks is open to the trace.
fn is_one_open(before: &[Laned], trace: &Trace) -> bool
    ensures { result ≡ list_any (is_open trace.now) before.now }
{
    for entry in before {
        if is_open(entry, trace) {
            return true;
        }
    }
    false
}

/// The mark, with the letter of the trace if it is open to it.
fn lettered(entry: &Laned, trace: &Trace) -> Laned
    ensures { result ≡ lettered trace.now entry.now }
{
    let beside = if is_open(entry, trace) {
        Some(trace.letter)
    } else {
        entry.beside
    };
    Laned {
        trace: entry.trace,
        lane: entry.lane,
        beside,
    }
}

/// The marks, with the letter of the trace at those that are open to it.
fn shared(alloc: Global, before: &[Laned], trace: &Trace) -> Result<Vec<Laned>, OutOfMemory>
    ensures { IfOk result (λ laned. laned.items ≡ map (lettered trace.now) before.now) }
{
    let mut laned = Vec::new(alloc);
    for entry in before {
        laned.push(lettered(entry, trace))?;
    }
    Ok(laned)
}

fn farther(lane: Lane) -> Lane
    ensures { result ≡ farther lane }
{
    match lane {
        Lane::Inner => Lane::Middle,
        Lane::Middle => Lane::Outer,
        Lane::Outer => Lane::Outer,
    }
}

/// The mark, one lane farther out.
fn pushed(entry: &Laned) -> Laned
    ensures { result ≡ pushed entry.now }
{
    Laned {
        trace: entry.trace,
        lane: farther(entry.lane),
        beside: entry.beside,
    }
}

/// The marks, each one lane farther out.
fn all_pushed(alloc: Global, before: &[Laned]) -> Result<Vec<Laned>, OutOfMemory>
    ensures { IfOk result (λ laned. laned.items ≡ map pushed before.now) }
{
    let mut laned = Vec::new(alloc);
    for entry in before {
        laned.push(pushed(entry))?;
    }
    Ok(laned)
}

/// The marks, with one of the trace's own in this lane.
fn with_own(
    alloc: Global,
    before: &[Laned],
    trace: &Trace,
    lane: Lane,
) -> Result<Vec<Laned>, OutOfMemory>
    ensures { IfOk result (λ laned. laned.items ≡ with_own before.now trace.now lane) }
{
    let mut laned = Vec::new(alloc);
    laned.extend_from_slice(before)?;
    laned.push(Laned {
        trace: *trace,
        lane,
        beside: None,
    })?;
    Ok(laned)
}

/// The marks of these traces stand well in the view with this box and this room; and if `free`, no chain line crosses a letter.
fn stands(
    alloc: Global,
    free: bool,
    b: &ViewBox,
    room: &Area,
    laned: &[Laned],
) -> Result<bool, OutOfMemory>
    ensures { IfOk result (λ well. well ≡ stands free b.now room.now laned.now) }
{
    let marks = marks_in(alloc, b, laned)?;
    Ok(stand_well(&box_area(b), room, &marks) && (!free || none_crossed(&marks)))
}

/// The marks with one of the trace's own, in the first lane in which they stand so, or else with all others one lane farther out.
fn owned(
    alloc: Global,
    free: bool,
    b: &ViewBox,
    room: &Area,
    before: &[Laned],
    trace: &Trace,
) -> Result<Option<Vec<Laned>>, OutOfMemory>
    ensures told { IfOk result (λ way. IfSome way (λ laned. find (stands free b.now room.now) (own_ways before.now trace.now) ≡ Some laned.items)) }
    ensures untold { IfOk result (λ way. way ≡ None → find (stands free b.now room.now) (own_ways before.now trace.now) ≡ None) }
{
    let inner = with_own(alloc, before, trace, Lane::Inner)?;
    if stands(alloc, free, b, room, &inner)? {
        return Ok(Some(inner));
    }
    let middle = with_own(alloc, before, trace, Lane::Middle)?;
    if stands(alloc, free, b, room, &middle)? {
        return Ok(Some(middle));
    }
    let outer = with_own(alloc, before, trace, Lane::Outer)?;
    if stands(alloc, free, b, room, &outer)? {
        return Ok(Some(outer));
    }
    let others = with_own(alloc, &all_pushed(alloc, before)?, trace, Lane::Inner)?;
    if stands(alloc, free, b, room, &others)? {
        return Ok(Some(others));
    }
    Ok(None)
}

/// The marks with the trace told among them, in the first way in which they stand so.
fn first_way(
    alloc: Global,
    free: bool,
    b: &ViewBox,
    room: &Area,
    before: &[Laned],
    trace: &Trace,
) -> Result<Option<Vec<Laned>>, OutOfMemory>
    ensures told { IfOk result (λ way. IfSome way (λ laned. find (stands free b.now room.now) (ways_of before.now trace.now) ≡ Some laned.items)) }
    ensures untold { IfOk result (λ way. way ≡ None → find (stands free b.now room.now) (ways_of before.now trace.now) ≡ None) }
{
    if is_one_open(before, trace) {
        let shared = shared(alloc, before, trace)?;
        if stands(alloc, free, b, room, &shared)? {
            return Ok(Some(shared));
        }
    }
    owned(alloc, free, b, room, before, trace)
}

/// The marks with the trace told among them, if it can be without a chain line across a letter in that way, and else in the first way in
/// which marks stand well.
fn placed(
    alloc: Global,
    b: &ViewBox,
    room: &Area,
    before: &[Laned],
    trace: &Trace,
) -> Result<Option<Vec<Laned>>, OutOfMemory>
    ensures told { IfOk result (λ way. IfSome way (λ laned. placed b.now room.now before.now trace.now ≡ Some laned.items)) }
    ensures untold { IfOk result (λ way. way ≡ None → placed b.now room.now before.now trace.now ≡ None) }
{
    match first_way(alloc, true, b, room, before, trace)? {
        Some(laned) => Ok(Some(laned)),
        None => first_way(alloc, false, b, room, before, trace),
    }
}

/// The marks of a view's traces, and the letters of those that have none and share none.
#[derive(Drop)]
pub(crate) struct Told {
    pub laned: Vec<Laned>,
    pub left_out: Vec<u8>,
}

/// Tells one more trace.
fn tell(
    alloc: Global,
    b: &ViewBox,
    room: &Area,
    told: &mut Told,
    trace: &Trace,
) -> Result<(), OutOfMemory>
    ensures { OnOk result ((traces : List Trace) → AreLaned b.now room.now traces told.old.laned.items told.old.left_out.items →
        AreLaned b.now room.now (traces ++ trace.now ∷ []) told.new.laned.items told.new.left_out.items) }
{
    match placed(alloc, b, room, &told.laned, trace)? {
        Some(laned) => told.laned = laned,
        None => told.left_out.push(trace.letter)?,
    }
    Ok(())
}

/// Tells the traces in the view with this box and this room, in their order. The time goes with the cube of their number, which is at most 12.
pub(crate) fn laned(
    alloc: Global,
    b: &ViewBox,
    room: &Area,
    traces: &[Trace],
) -> Result<Told, OutOfMemory>
    ensures { IfOk result (λ told. AreLaned b.now room.now traces.now told.laned.items told.left_out.items) }
{
    let mut told = Told {
        laned: Vec::new(alloc),
        left_out: Vec::new(alloc),
    };
    for trace in traces {
        tell(alloc, b, room, &mut told, trace)?;
    }
    Ok(told)
}
