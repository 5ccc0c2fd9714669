// Where the views of jobs stand.
ghost use Rattle.std.specs.Prelude.{◌<◌, ◌≤ℤ◌, ◌^◌, unsigned_abs};

use exact_frac::OutOfMemory;
use job_file::{Job, JobView};
use lattice::Dir;
use sheet_plan::{Extent, Sheet, plan};
use std::alloc::Global;

// From where a view reaches and how far, to the right and upward, in hundreds of units.
type Reach = (i16, u16, i16, u16);

// The bracket of 30 by 20 by 20 mm, from the front, from above and from the left.
const BRACKET: [Reach; 3] = [(0, 300, 0, 200), (0, 300, 0, 200), (-200, 200, 0, 200)];

// A box of 30 by 20 by 10 mm, from the front, from behind, from the left, from the right, from above and from below.
const FLAT_BOX: [Reach; 6] = [
    (0, 300, 0, 100),
    (-300, 300, 0, 100),
    (-200, 200, 0, 100),
    (0, 200, 0, 100),
    (0, 300, 0, 200),
    (0, 300, -200, 200),
];

// The cube from (1, -1, 1).
const CUBE_FROM_A_CORNER: Reach = (0, 200, -100, 400);

const SIX_VIEWS: &str = "[[view]]
name = \"front\"
[[view]]
name = \"back\"
[[view]]
name = \"left\"
[[view]]
name = \"right\"
[[view]]
name = \"above\"
[[view]]
name = \"below\"
";

// The same in third-angle projection.
const THIRD: &str = "angle = \"third\"
[[view]]
name = \"front\"
[[view]]
name = \"back\"
[[view]]
name = \"left\"
[[view]]
name = \"right\"
[[view]]
name = \"above\"
[[view]]
name = \"below\"
";

// From where to where a view reaches, in units.
fn ends(least: i16, length: u16) -> (i64, i64)
    ensures ordered { result.0 ≤ℤ result.1 }
    ensures least_size { unsigned_abs result.0 < 2 ^ 29 }
    ensures greatest_size { unsigned_abs result.1 < 2 ^ 29 }
{
    let from = 100 * i64::from(least);
    (from, from + 100 * i64::from(length))
}

fn extent_of(d: Dir, reach: &Reach) -> Extent {
    let (left, width, bottom, height) = *reach;
    let (u_min, u_max) = ends(left, width);
    let (v_min, v_max) = ends(bottom, height);
    Extent {
        d,
        u_min,
        u_max,
        v_min,
        v_max,
    }
}

fn extents_of(
    alloc: Global,
    views: &[JobView],
    reaches: &[Reach],
) -> Result<Vec<Extent>, OutOfMemory> {
    let mut extents = Vec::new(alloc);
    for (view, reach) in views.iter().zip(reaches) {
        extents.push(extent_of(view.dir(), reach))?;
    }
    Ok(extents)
}

// The sheet of a job whose views reach so far.
fn sheet_of(alloc: Global, text: &str, reaches: &[Reach]) -> Option<Sheet> {
    let Ok(job) = Job::read(alloc, text.as_bytes()) else {
        return None;
    };
    let extents = extents_of(alloc, &job.views, reaches).ok()?;
    if job.views.len() != extents.len() {
        return None;
    }
    plan(alloc, &job, &extents).ok()
}

// The views of the sheet stand at these places.
fn stand(sheet: &Sheet, places: &[(i64, i64)]) -> bool {
    for (view, place) in sheet.places.iter().zip(places) {
        if (view.x0, view.y0) != *place {
            return false;
        }
    }
    sheet.places.len() == places.len()
}

// The text of a job, how far its views reach, and where they stand.
const PLACES: [(&str, &[Reach], &[(i64, i64)]); 5] = [
    ("", &BRACKET, &[(2000, 4000), (2000, 7500), (8500, 4000)]),
    (
        SIX_VIEWS,
        &FLAT_BOX,
        &[
            (5500, 6500),
            (16500, 6500),
            (12000, 6500),
            (2000, 6500),
            (5500, 10000),
            (5500, 2000),
        ],
    ),
    (
        THIRD,
        &FLAT_BOX,
        &[
            (5500, 6500),
            (16500, 6500),
            (4000, 6500),
            (10000, 6500),
            (5500, 4000),
            (5500, 8000),
        ],
    ),
    (
        "[[view]]\ntoward = [1, -1, 1]\n",
        &[CUBE_FROM_A_CORNER],
        &[(2000, 3225)],
    ),
    (
        "[[view]]\ntoward = [1, -1, 1]\n[[view]]\nname = \"front\"\n[[view]]\ntoward = [1, -1, 1]\n",
        &[CUBE_FROM_A_CORNER, (0, 100, 0, 100), CUBE_FROM_A_CORNER],
        &[(2000, 5725), (2000, 3000), (4914, 5725)],
    ),
];

#[test]
fn places_of_views(rt: HostRuntime) {
    for (text, reaches, places) in &PLACES {
        let Some(sheet) = sheet_of(rt.alloc(), text, reaches) else {
            panic!(rt; "no sheet of {text}");
        };
        assert!(rt; stand(&sheet, places), "{text}");
    }
}
