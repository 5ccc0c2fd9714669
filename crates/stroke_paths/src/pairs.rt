// Of the ends at a place the two between which a path goes on.
ghost use Rattle.std.specs.Prelude.{◌≡◌, ◌↔◌, ◌+◌, ◌<◌, IsTrue, length};
ghost use Rattle.stroke_paths.specs.Joints.{AreSame};
ghost use Rattle.stroke_paths.specs.inner.Pairs.{AreBefore, IsAlone, IsAloneAt, IsBest, IsLeastPair, IsLess, IsLessThan, IsOther, IsPairOf};

use crate::path::End;
use crate::turns::{Turn, turn_between, turns_less};
use sheet_plan::Stroke;

/// Two ends at a place, and the turn of a path that goes on from one to the other.
#[derive(Clone, Copy)]
pub(crate) struct Pair {
    pub first: End,
    pub second: End,
    turn: Turn,
}

/// The two ends between which a path turns by at most 45 degrees, and less than between any other two. It looks at each pair of
/// the ends twice: n² pairs for n ends.
pub(crate) fn least_pair(strokes: &[Stroke], ends: &[End]) -> Option<Pair>
    ensures { IsLeastPair strokes.now ends.now result }
{
    let best = first_least(strokes, ends)?;
    if is_alone(strokes, ends, &best) {
        Some(best)
    } else {
        None
    }
}

/// The first pair of those that turn least.
fn first_least(strokes: &[Stroke], ends: &[End]) -> Option<Pair>
    ensures { IsBest strokes.now ends.now (AreBefore ends.now (length ends.now)) result }
{
    let mut best = None;
    for i in 0..ends.len() {
        best = best_with(strokes, ends, i, best);
    }
    best
}

/// The best pair so far, or one of the end at `i` and an end after it that turns less.
fn best_with(strokes: &[Stroke], ends: &[End], i: usize, so_far: Option<Pair>) -> Option<Pair>
    requires listed { i < length ends.now }
    requires so_far { IsBest strokes.now ends.now (AreBefore ends.now i) so_far }
    ensures { IsBest strokes.now ends.now (AreBefore ends.now (i + 1)) result }
{
    let mut best = so_far;
    for j in i + 1..ends.len() {
        best = less_of(best, pair_of(strokes, ends[i], ends[j]));
    }
    best
}

/// The second pair if it turns less, and else the first.
fn less_of(best: Option<Pair>, pair: Option<Pair>) -> Option<Pair>
    ensures { IsLess best pair result }
{
    let Some(new) = pair else {
        return best;
    };
    let Some(old) = best else {
        return pair;
    };
    if turns_less(new.turn, old.turn) {
        pair
    } else {
        best
    }
}

/// Every other pair turns more.
fn is_alone(strokes: &[Stroke], ends: &[End], best: &Pair) -> bool
    ensures { IsTrue result ↔ IsAlone strokes.now ends.now best.now }
{
    for i in 0..ends.len() {
        if !is_alone_at(strokes, ends, best, i) {
            return false;
        }
    }
    true
}

/// Every other pair of the end at `i` and an end after it turns more.
fn is_alone_at(strokes: &[Stroke], ends: &[End], best: &Pair, i: usize) -> bool
    requires { i < length ends.now }
    ensures { IsTrue result ↔ IsAloneAt strokes.now ends.now i best.now }
{
    for j in i + 1..ends.len() {
        if !is_less_than(strokes, best, ends[i], ends[j]) {
            return false;
        }
    }
    true
}

/// The pair turns less than these two ends, which may not be joined or may be the same two.
fn is_less_than(strokes: &[Stroke], best: &Pair, first: End, second: End) -> bool
    ensures { IsTrue result ↔ IsLessThan strokes.now best.now first second }
{
    let Some(other) = pair_of(strokes, first, second) else {
        return true;
    };
    if is_same(best, first, second) {
        return true;
    }
    turns_less(best.turn, other.turn)
}

/// The pair is of these two ends.
fn is_same(pair: &Pair, first: End, second: End) -> bool
    ensures { IsTrue result ↔ AreSame pair.now.first pair.now.second first second }
{
    if first == pair.first {
        return second == pair.second;
    }
    if first == pair.second {
        return second == pair.first;
    }
    false
}

/// The pair of two ends, if a path may go on from one to the other.
fn pair_of(strokes: &[Stroke], first: End, second: End) -> Option<Pair>
    ensures { IsPairOf strokes.now first second result }
{
    if first.stroke == second.stroke {
        return None;
    }
    let one = strokes.get(first.stroke)?;
    let next = strokes.get(second.stroke)?;
    let turn = turn_between(one, first.tip, next, second.tip)?;
    Some(Pair {
        first,
        second,
        turn,
    })
}

/// The other end of a pair.
pub(crate) fn other_end(pair: Pair, end: End) -> Option<End>
    ensures { IsOther pair end result }
{
    if end == pair.first {
        return Some(pair.second);
    }
    if end == pair.second {
        return Some(pair.first);
    }
    None
}
