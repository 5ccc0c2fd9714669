// What parts leave of whole intervals.
ghost use Rattle.std.specs.Prelude.{◌≡◌, ℕ, ◌<◌, slice_index_or, IfOk, OnOk};
ghost use Rattle.std.specs.declared.cmp.Ordering.TheVariants.{Less};
ghost use Rattle.intervals.specs.Cuts.{IsProper, AreApart, AreRest};
ghost use Rattle.intervals.specs.inner.Steps.{IsAdded, IsRestAdded, EndBefore};

use crate::interval::Interval;
use crate::order::{earlier, is_before, later};
use exact_frac::OutOfMemory;
use std::alloc::Global;

/// What the parts leave of the whole ones. In both lists, and in the answer, each ends before the next begins. A part
/// may lie within several whole ones, or in none.
///
/// Fails only where memory runs out. Cost: one pass over both lists.
pub fn rest<T: Ord + Copy>(
    alloc: Global,
    whole: &[Interval<T>],
    parts: &[Interval<T>],
) -> Result<Vec<Interval<T>>, OutOfMemory>
    requires whole { AreApart T.cmp whole.now }
    requires parts { AreApart T.cmp parts.now }
    ensures { IfOk result (λ rest. AreRest T.cmp whole.now parts.now rest.items) }
{
    let mut rest = Vec::new(alloc);
    let mut passed = 0;
    for x in whole {
        passed = add_rest_of(&mut rest, *x, parts, passed)?;
    }
    Ok(rest)
}

/// Adds what the parts leave of this one, and tells how many of them end before it does. `passed` of them end before
/// it begins.
fn add_rest_of<T: Ord + Copy>(
    rest: &mut Vec<Interval<T>>,
    x: Interval<T>,
    parts: &[Interval<T>],
    passed: usize,
) -> Result<usize, OutOfMemory>
    requires proper { IsProper T.cmp x }
    requires parts { AreApart T.cmp parts.now }
    requires passed { EndBefore T.cmp x.from parts.now passed }
    ensures rest { OnOk result (IsRestAdded T.cmp x parts.now rest.old.items rest.new.items) }
    ensures passed { IfOk result (EndBefore T.cmp x.to parts.now) }
{
    let mut from = x.from;
    let mut k = passed;
    while k < parts.len() {
        let part = parts[k];
        add(rest, from, earlier(part.from, x.to))?;
        if !is_before(part.to, x.to) {
            return Ok(k);
        }
        from = later(from, part.to);
        k += 1;
    }
    add(rest, from, x.to)?;
    Ok(k)
}

/// Adds the interval, if it has an inside.
fn add<T: Ord + Copy>(rest: &mut Vec<Interval<T>>, from: T, to: T) -> Result<(), OutOfMemory>
    ensures { OnOk result (IsAdded T.cmp from to rest.old.items rest.new.items) }
{
    if is_before(from, to) {
        rest.push(Interval { from, to })?;
    }
    Ok(())
}
