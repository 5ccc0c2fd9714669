// Worked rows: intervals put together, and what parts leave of whole ones.
ghost use Rattle.std.specs.Prelude.{All, IfOk};
ghost use Rattle.std.specs.Ordering.{nat_cmp};
ghost use Rattle.intervals.specs.Cuts.{IsProper};

use exact_frac::OutOfMemory;
use intervals::{Interval, rest, united};
use std::alloc::Global;
use std::process::Abort;

// A list of ends.
type Ends = &'static [(u32, u32)];

fn intervals_of(
    rt: &impl Abort,
    alloc: Global,
    rows: Ends,
) -> Result<Vec<Interval<u32>>, OutOfMemory>
    ensures { IfOk result (λ given. All (IsProper nat_cmp) given.items) }
{
    let mut given = Vec::new(alloc);
    for (from, to) in rows {
        assert!(rt; from < to);
        given.push(Interval {
            from: *from,
            to: *to,
        })?;
    }
    Ok(given)
}

fn check(rt: &impl Abort, got: &[Interval<u32>], want: Ends) {
    assert_eq!(rt; got.len(), want.len(), "{got:?}");
    for (got, want) in got.iter().zip(want) {
        assert_eq!(rt; (got.from, got.to), *want);
    }
}

#[test]
fn unions(rt: HostRuntime) -> Result<(), OutOfMemory> {
    let rows: [(Ends, Ends); 9] = [
        (&[], &[]),
        (&[(3, 4)], &[(3, 4)]),
        (&[(1, 5), (3, 8)], &[(1, 8)]),
        (&[(4, 6), (1, 4)], &[(1, 6)]),
        (&[(1, 9), (2, 3), (4, 5)], &[(1, 9)]),
        (&[(2, 7), (2, 7)], &[(2, 7)]),
        (&[(6, 8), (1, 2), (3, 5)], &[(1, 2), (3, 5), (6, 8)]),
        (&[(5, 6), (1, 3), (2, 4)], &[(1, 4), (5, 6)]),
        (&[(2, 3), (2, 6), (0, 1)], &[(0, 1), (2, 6)]),
    ];
    for (rows, want) in rows {
        let rows = intervals_of(&rt, rt.alloc(), rows)?;
        check(&rt, &united(rt.alloc(), rows)?, want);
    }
    Ok(())
}

fn check_rest(
    rt: &impl Abort,
    alloc: Global,
    whole: Ends,
    parts: Ends,
    want: Ends,
) -> Result<(), OutOfMemory> {
    let whole = united(alloc, intervals_of(rt, alloc, whole)?)?;
    let parts = united(alloc, intervals_of(rt, alloc, parts)?)?;
    check(rt, &rest(alloc, &whole, &parts)?, want);
    Ok(())
}

#[test]
fn rests(rt: HostRuntime) -> Result<(), OutOfMemory> {
    let rows: [(Ends, Ends, Ends); 12] = [
        (&[], &[(1, 2)], &[]),
        (&[(2, 9)], &[], &[(2, 9)]),
        (&[(2, 9)], &[(2, 4)], &[(4, 9)]),
        (&[(2, 9)], &[(7, 9)], &[(2, 7)]),
        (&[(2, 9)], &[(4, 6)], &[(2, 4), (6, 9)]),
        (&[(2, 9)], &[(3, 4), (5, 7)], &[(2, 3), (4, 5), (7, 9)]),
        (&[(2, 9)], &[(2, 9)], &[]),
        (&[(2, 9)], &[(0, 2), (9, 10)], &[(2, 9)]),
        (&[(2, 9)], &[(0, 3), (8, 12)], &[(3, 8)]),
        (&[(2, 4), (6, 9)], &[(3, 7)], &[(2, 3), (7, 9)]),
        (&[(2, 4), (6, 9)], &[(0, 12)], &[]),
        (
            &[(1, 2), (3, 5), (6, 9)],
            &[(1, 2), (4, 5), (7, 8)],
            &[(3, 4), (6, 7), (8, 9)],
        ),
    ];
    for (whole, parts, want) in rows {
        check_rest(&rt, rt.alloc(), whole, parts, want)?;
    }
    Ok(())
}
