// The counts along the edges of cut views, beside the spans that the plain program finds by all faces, on a table of parts and planes;
// and the single tests, which add up to what changes there.
ghost use Rattle.std.specs.Prelude.{◌<◌, length};
ghost use Rattle.lattice.specs.Cuts.{plane_of};
ghost use Rattle.solid_mesh.specs.Solids.{solid_part, edge_halves};
ghost use Rattle.cut_plane.specs.Loops.{AreBorders};

use cross_find::{Crossing, Meter};
use cut_count::{border_cross, cut_bound, cut_cross, spans_cut};
use cut_plane::{Section, borders};
use edge_pick::{Crease, Picked, pick};
use exact_frac::{Frac, OutOfMemory};
use lattice::{Axis, Cut};
use solid_mesh::Solid;
use span_count::{AllOutlines, CountSpan, EdgeSpans};
use span_slow::{Span, View, spans_slow};
use std::alloc::Global;
use std::process::Abort;
use test_fixtures::{
    BENEATH, BENEATH_CORNERS, CORNERS, CUBES, INWARD_TEXT, LEAN, LEAN_CORNERS, SHELL_CORNERS,
    SHELLS, TUBE, TUBE_CORNERS, is_seen, solid, solid_of,
};

// The counted spans are hidden where the plain program's are.
fn is_told(
    alloc: Global,
    solid: &Solid,
    section: &Section,
    entry: &EdgeSpans,
) -> Result<bool, OutOfMemory>
    requires borders { AreBorders (plane_of section.now.cut) (solid_part solid.now) section.now.segments.items section.now.loops.items }
{
    if !is_seen(solid, &section.cut.dir(), entry.edge) {
        return Ok(false);
    }
    let slow = spans_slow(alloc, solid, &View::Section(section), entry.edge)?;
    for span in &entry.spans {
        if !is_within(span, &slow) {
            return Ok(false);
        }
    }
    Ok(slow.is_empty() == entry.spans.is_empty())
}

// The first span goes as far as the other or farther, on both sides.
fn is_around(x: &Span, span: &CountSpan) -> bool {
    x.from <= span.from && span.to <= x.to
}

// The span is within one of these that is as hidden.
fn is_within(span: &CountSpan, slow: &[Span]) -> bool {
    let hidden = span.left != 0 || span.right != 0;
    for x in slow {
        if x.hidden == hidden && is_around(x, span) {
            return true;
        }
    }
    false
}

// The sums, and what a crossing changes where it is at this place.
fn added(sums: (i32, i32), crossing: Option<Crossing>, at: Frac) -> (i32, i32) {
    match crossing {
        Some(x) if x.at == at => (
            sums.0.saturating_add(x.left.into()),
            sums.1.saturating_add(x.right.into()),
        ),
        _ => sums,
    }
}

// What outlines change of the two counts of an edge at a place.
fn by_outlines(solid: &Solid, section: &Section, picked: &Picked, edge: u32, at: Frac) -> (i32, i32)
    requires edge { edge < length (edge_halves solid.now) }
{
    let mut sums = (0, 0);
    for outline in &picked.outlines {
        let mut meter = Meter { tests: 0 };
        if *outline < solid.edges() {
            sums = added(
                sums,
                cut_cross(solid, section, edge, *outline, &mut meter),
                at,
            );
        }
    }
    sums
}

// What outlines and borders change of them.
fn changes_at(solid: &Solid, section: &Section, picked: &Picked, edge: u32, at: Frac) -> (i32, i32)
    requires edge { edge < length (edge_halves solid.now) }
    requires borders { AreBorders (plane_of section.now.cut) (solid_part solid.now) section.now.segments.items section.now.loops.items }
{
    let mut sums = by_outlines(solid, section, picked, edge, at);
    for segment in 0..u32::try_from(section.segments.len()).unwrap_or(0) {
        let mut meter = Meter { tests: 0 };
        sums = added(
            sums,
            border_cross(solid, section, edge, segment, &mut meter),
            at,
        );
    }
    sums
}

// A count has changed by so much.
fn is_changed(from: u32, to: u32, change: i32) -> bool {
    i64::from(from).saturating_add(change.into()) == i64::from(to)
}

// From a span to the next one the counts change by what the single tests say.
fn is_added_up(solid: &Solid, section: &Section, picked: &Picked, entry: &EdgeSpans) -> bool
    requires borders { AreBorders (plane_of section.now.cut) (solid_part solid.now) section.now.segments.items section.now.loops.items }
{
    if entry.edge >= solid.edges() {
        return false;
    }
    let mut last: Option<CountSpan> = None;
    for span in &entry.spans {
        if let Some(x) = last {
            let (left, right) = changes_at(solid, section, picked, entry.edge, span.from);
            if !is_changed(x.left, span.left, left) || !is_changed(x.right, span.right, right) {
                return false;
            }
        }
        last = Some(*span);
    }
    true
}

// The spans of each edge are told and added up.
fn are_right(
    alloc: Global,
    solid: &Solid,
    section: &Section,
    picked: &Picked,
    entries: &[EdgeSpans],
) -> Result<bool, OutOfMemory>
    requires borders { AreBorders (plane_of section.now.cut) (solid_part solid.now) section.now.segments.items section.now.loops.items }
{
    for entry in entries {
        if !is_told(alloc, solid, section, entry)? || !is_added_up(solid, section, picked, entry) {
            return Ok(false);
        }
    }
    Ok(true)
}

// The counts of a cut view are as the plain program and the sums of single tests tell, and take no more tests than they may.
fn is_right(alloc: Global, solid: &Solid, cut: &Cut) -> Result<bool, OutOfMemory> {
    let section = borders(alloc, solid, cut)?;
    let picked = pick(alloc, solid, &section.cut.dir(), Crease::Normal)?;
    let most = cut_bound(solid, &section, &picked);
    let finder = AllOutlines::new(&picked);
    let mut meter = Meter { tests: 0 };
    let entries = spans_cut(alloc, solid, &section, &picked, &finder, &mut meter)?;
    if meter.tests > most {
        return Ok(false);
    }
    are_right(alloc, solid, &section, &picked, &entries)
}

// A tetrahedron beneath a cube of which what a cut leaves is seen within its section.
fn narrow(alloc: Global) -> Option<Solid> {
    let mut corners = BENEATH_CORNERS;
    corners[11] = [10_500, 3_500, -1_000];
    solid(alloc, &corners, &BENEATH)
}

// The axis and the place of a plane, and whether it is seen from the high side.
type Plane = (Axis, i64, bool);

// Across the bore, along its wall, before the tube and behind it, and from above.
const TUBE_PLANES: [Plane; 5] = [
    (Axis::Y, 15_000, false),
    (Axis::Y, 10_000, false),
    (Axis::Y, -1_000, false),
    (Axis::Y, 40_000, false),
    (Axis::Z, 10_000, true),
];

const BENEATH_PLANES: [Plane; 2] = [(Axis::Z, 5_000, true), (Axis::Z, -2_500, false)];

const LEAN_PLANES: [Plane; 2] = [(Axis::Z, 5, true), (Axis::X, 5, false)];

fn check(rt: &impl Abort, alloc: Global, name: &str, part: Option<Solid>, planes: &[Plane]) {
    let Some(part) = part else {
        panic!(rt; "no {name}");
    };
    for (axis, at, from_high) in planes {
        let Ok(cut) = Cut::new(*axis, *at, *from_high) else {
            panic!(rt; "no cut");
        };
        assert!(rt;
            is_right(alloc, &part, &cut) == Ok(true),
            "{name}, {axis:?}, {at}"
        );
    }
}

#[test]
fn cut_counts_tell_what_the_plain_program_finds(rt: HostRuntime) {
    let alloc = rt.alloc();
    let tube = solid(alloc, &TUBE_CORNERS, &TUBE);
    check(&rt, alloc, "tube", tube, &TUBE_PLANES);
    let shells = solid(alloc, &SHELL_CORNERS, &SHELLS);
    check(&rt, alloc, "shells", shells, &[(Axis::Z, 15_000, true)]);
    let beneath = solid(alloc, &BENEATH_CORNERS, &BENEATH);
    check(&rt, alloc, "beneath", beneath, &BENEATH_PLANES);
    check(
        &rt,
        alloc,
        "narrow from below",
        narrow(alloc),
        &[(Axis::Z, -1_500, false)],
    );
    let lean = solid(alloc, &LEAN_CORNERS, &LEAN);
    check(&rt, alloc, "lean", lean, &LEAN_PLANES);
    let cubes = solid(alloc, &CORNERS, &CUBES);
    check(&rt, alloc, "cubes", cubes, &[(Axis::Y, 5, false)]);
    check(
        &rt,
        alloc,
        "inward",
        solid_of(alloc, INWARD_TEXT),
        &[(Axis::X, 15_000, true)],
    );
}
