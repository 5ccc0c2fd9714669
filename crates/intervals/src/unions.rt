// Intervals that overlap or touch, put together.
ghost use Rattle.std.specs.Prelude.{◌≡◌, All, IfOk, IsPermutation};
ghost use Rattle.std.specs.List.Sorted.{IsSortedByKey};
ghost use Rattle.intervals.specs.Cuts.{IsProper, AreUnited};

use crate::interval::Interval;
use crate::order::is_before;
use exact_frac::OutOfMemory;
use std::alloc::Global;

/// Intervals that overlap or touch, put together. The given ones stand in any order, and each has an inside; the united
/// ones ascend, and each ends before the next begins.
///
/// Fails only where memory runs out. Cost: a sort, and one pass over them.
pub fn united<T: Ord + Copy>(
    alloc: Global,
    intervals: Vec<Interval<T>>,
) -> Result<Vec<Interval<T>>, OutOfMemory>
    requires { All (IsProper T.cmp) intervals.items }
    ensures { IfOk result (λ united. AreUnited T.cmp intervals.items united.items) }
{
    let intervals = ascending(intervals)?;
    joined(alloc, &intervals)
}

/// The intervals in the order of their beginnings.
fn ascending<T: Ord + Copy>(
    mut intervals: Vec<Interval<T>>,
) -> Result<Vec<Interval<T>>, OutOfMemory>
    ensures same { IfOk result (λ sorted. IsPermutation intervals.items sorted.items) }
    ensures sorted { IfOk result (λ sorted. IsSortedByKey (λ x. x.from) T.cmp sorted.items) }
{
    intervals.sort_by_key(|x| x.from)?;
    Ok(intervals)
}

/// The same for intervals in the order of their beginnings.
fn joined<T: Ord + Copy>(
    alloc: Global,
    intervals: &[Interval<T>],
) -> Result<Vec<Interval<T>>, OutOfMemory>
    requires proper { All (IsProper T.cmp) intervals.now }
    requires sorted { IsSortedByKey (λ x. x.from) T.cmp intervals.now }
    ensures { IfOk result (λ united. AreUnited T.cmp intervals.now united.items) }
{
    let mut united = Vec::new(alloc);
    let Some(first) = intervals.first() else {
        return Ok(united);
    };
    let mut open = *first;
    for x in intervals {
        if is_before(open.to, x.from) {
            united.push(open)?;
            open = *x;
        } else if is_before(open.to, x.to) {
            open.to = x.to;
        }
    }
    united.push(open)?;
    Ok(united)
}
