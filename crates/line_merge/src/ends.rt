// Where the ends of strips are seen, and their order.
ghost use Rattle.std.specs.Prelude.{◌≡◌};
ghost use Rattle.std.specs.Ordering.{as_partial_cmp, eq_by_cmp};
ghost use Rattle.std.specs.Cmp.{partial_order_from_total, partial_equiv_from_equiv, eq_by_cmp_equiv};
ghost use Rattle.std.proofs.Common.{refl};
ghost use Rattle.lattice.specs.Points.{of_dir};
ghost use Rattle.lattice.specs.Lines.{AreStripEnds};
ghost use Rattle.line_merge.specs.inner.Ends.{seen_order, IsSeenEndOf, IsIntervalOf};

use crate::numbering::Numbered;
use exact_frac::Frac;
use intervals::Interval;
use lattice::{Dir, Spot, across, upward};
use std::cmp::Ordering;

/// Where an end of a strip is seen on its line. Ends are in the order of the numbers of their lines, and on one line of U and then of V.
#[derive(Clone, Copy)]
pub(crate) struct SeenEnd {
    pub line: usize,
    pub across: Frac,
    pub upward: Frac,
    pub spot: Spot,
}

impl SeenEnd {
    /// The end at a spot on the line with this number.
    fn new(d: &Dir, line: usize, spot: Spot) -> SeenEnd
        ensures { IsSeenEndOf (of_dir d.now) line spot result }
    {
        SeenEnd {
            line,
            across: across(d, &spot),
            upward: upward(d, &spot),
            spot,
        }
    }
}

/// What is between the two ends of the strip.
pub(crate) fn interval_of(d: &Dir, numbered: &Numbered) -> Interval<SeenEnd>
    requires { AreStripEnds (of_dir d.now) numbered.now.strip.line numbered.now.strip.a numbered.now.strip.b }
    ensures { IsIntervalOf (of_dir d.now) numbered.now result }
{
    let a = SeenEnd::new(d, numbered.line, numbered.strip.a);
    let b = SeenEnd::new(d, numbered.line, numbered.strip.b);
    if a < b {
        Interval { from: a, to: b }
    } else {
        Interval { from: b, to: a }
    }
}

/// The order of two ends on one line: of U, and then of V.
pub(crate) fn compare_seen(s: &SeenEnd, t: &SeenEnd) -> Ordering
    ensures { result ≡ seen_order s.now t.now }
{
    match s.across.cmp(&t.across) {
        Ordering::Equal => s.upward.cmp(&t.upward),
        different => different,
    }
}

impl Ord for SeenEnd {
    ghost use Rattle.line_merge.specs.inner.Ends.{end_order};
    ghost use Rattle.line_merge.specs.inner.Laws.{end_order_total};

    ghost cmp = { end_order };

    ghost total = { end_order_total };

    ghost matches_partial_cmp = { λ x y. refl };

    ghost matches_eq = { λ x y. refl };

    /// The order of the lines' numbers, and on one line that of the places.
    fn cmp(&self, other: &SeenEnd) -> Ordering {
        match self.line.cmp(&other.line) {
            Ordering::Equal => compare_seen(self, other),
            different => different,
        }
    }
}

impl PartialOrd for SeenEnd {
    ghost use Rattle.line_merge.specs.inner.Ends.{end_order};
    ghost use Rattle.line_merge.specs.inner.Laws.{end_order_total};

    ghost partial_cmp = { as_partial_cmp end_order };

    ghost laws = { partial_order_from_total end_order_total };

    fn partial_cmp(&self, other: &SeenEnd) -> Option<Ordering> {
        Some(self.cmp(other))
    }
}

impl Eq for SeenEnd {
    ghost use Rattle.line_merge.specs.inner.Laws.{end_order_total};

    ghost laws = { eq_by_cmp_equiv end_order_total };
}

impl PartialEq for SeenEnd {
    ghost use Rattle.line_merge.specs.inner.Ends.{end_order};
    ghost use Rattle.line_merge.specs.inner.Laws.{end_order_total};

    ghost eq = { eq_by_cmp end_order };

    ghost laws = { partial_equiv_from_equiv (eq_by_cmp_equiv end_order_total) };

    fn eq(&self, other: &SeenEnd) -> bool {
        self.cmp(other) == Ordering::Equal
    }
}
