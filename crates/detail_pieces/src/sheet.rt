// The sheet of a detail.
ghost use Rattle.std.specs.Prelude.{◌≡◌, ◌+◌, ◌<◌, ◌≤◌, ◌^◌, ◌%◌, pos, ◌-ℤ◌, ◌+ℤ◌, ◌≤ℤ◌, unsigned_abs, IfOk};
ghost use Rattle.lattice.specs.Points.{of_dir};
ghost use Rattle.sheet_plan.specs.Numbers.{measure_of};
ghost use Rattle.detail_pieces.specs.Pages.{across_on, upward_on, IsRaised, IsDetailSheet};

use crate::windows::Window;
use exact_frac::OutOfMemory;
use job_file::Scale;
use lattice::Dir;
use sheet_plan::{Ruler, Sheet, Spread};
use std::alloc::Global;

/// A length from `from` to `to` with 20 mm on both sides, up to the next whole millimetre.
fn room(from: i64, to: i64) -> i64
    requires ordered { from ≤ℤ to }
    requires first { unsigned_abs from ≤ 2 ^ 54 }
    requires second { unsigned_abs to ≤ 2 ^ 54 }
    ensures raised { IsRaised ((to -ℤ from) +ℤ pos 4000) result }
    ensures whole { unsigned_abs result % 100 ≡ 0 }
    ensures least { pos 4000 ≤ℤ result }
    ensures size { unsigned_abs result < 2 ^ 60 }
{
    raised((to - from + 4000) as u64) as i64
}

/// The first whole millimetre that isn't below the length.
fn raised(length: u64) -> u64
    requires { length ≤ 2 ^ 56 }
    ensures whole { result % 100 ≡ 0 }
    ensures least { length ≤ result }
    ensures below_next { result < length + 100 }
{
    (length + 99) / 100 * 100
}

/// How wide the sheet of a window is.
fn width_of(ruler: &Ruler, d: &Dir, window: &Window) -> i64
    ensures raised { IsRaised ((across_on (measure_of ruler.now.scale ruler.now.decimals) d.now window.now.u2 -ℤ across_on (measure_of ruler.now.scale ruler.now.decimals) d.now window.now.u1) +ℤ pos 4000) result }
    ensures whole { unsigned_abs result % 100 ≡ 0 }
    ensures least { pos 4000 ≤ℤ result }
    ensures size { unsigned_abs result < 2 ^ 60 }
{
    room(
        ruler.whole_across(d, window.u1),
        ruler.whole_across(d, window.u2),
    )
}

/// How high it is.
fn height_of(ruler: &Ruler, d: &Dir, window: &Window) -> i64
    ensures raised { IsRaised ((upward_on (measure_of ruler.now.scale ruler.now.decimals) d.now window.now.v2 -ℤ upward_on (measure_of ruler.now.scale ruler.now.decimals) d.now window.now.v1) +ℤ pos 4000) result }
    ensures whole { unsigned_abs result % 100 ≡ 0 }
    ensures least { pos 4000 ≤ℤ result }
    ensures size { unsigned_abs result < 2 ^ 60 }
{
    room(
        ruler.whole_upward(d, window.v1),
        ruler.whole_upward(d, window.v2),
    )
}

/// Where the view of a window stands: 20 mm from the left and from above.
fn place_of(ruler: &Ruler, d: &Dir, window: &Window) -> Spread
    ensures seen { of_dir result.d ≡ of_dir d.now }
    ensures x0 { result.x0 ≡ pos 2000 -ℤ across_on (measure_of ruler.now.scale ruler.now.decimals) d.now window.now.u1 }
    ensures y0 { result.y0 ≡ pos 2000 +ℤ upward_on (measure_of ruler.now.scale ruler.now.decimals) d.now window.now.v2 }
{
    Spread {
        d: *d,
        x0: 2000 - ruler.whole_across(d, window.u1),
        y0: 2000 + ruler.whole_upward(d, window.v2),
    }
}

/// The sheet of the window of a view from `d`, at this scale, with units of 10^-`decimals` mm.
pub(crate) fn sheet_of(
    alloc: Global,
    decimals: u8,
    scale: Scale,
    d: &Dir,
    window: &Window,
) -> Result<Sheet, OutOfMemory>
    requires { decimals ≤ 6 }
    ensures { IfOk result (IsDetailSheet decimals scale d.now window.now) }
{
    let ruler = Ruler { scale, decimals };
    let mut places = Vec::new(alloc);
    places.push(place_of(&ruler, d, window))?;
    Ok(Sheet {
        width: width_of(&ruler, d, window),
        height: height_of(&ruler, d, window),
        decimals,
        scale,
        places,
    })
}
