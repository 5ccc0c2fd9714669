// The counts along edges, beside the spans that the plain program finds by all faces, on a table of parts; and spans of a block that
// is smaller at its top, whole and cut. The expected counts are those of another program, which counts the nearer faces at points.
use crate::shares::share;
use cross_find::SolidSight;
use cut_plane::borders;
use edge_pick::{Crease, pick};
use exact_frac::{Frac, OutOfMemory};
use lattice::{Axis, Cut, Dir};
use solid_mesh::Solid;
use span_count::{AllOutlines, CountSpan, EdgeSpans, bound, count_runs, spans_counted};
use span_slow::{Span, View, spans_slow};
use std::alloc::{AllocError, Global};
use std::process::Abort;
use std::test::Fail;
use test_fixtures::{
    BLOCK_CORNERS, BRACKET_TEXT, CORNERS, CUBE_AND_WEDGE, CUBE_TEXT, CUBES, INWARD_TEXT,
    THIRDS_TEXT, TUBE, TUBE_CORNERS, WELDED_TEXT, is_seen, solid, solid_of,
};

// The entries of a view, the number of tests and what it may be at most.
#[derive(Drop)]
struct Counted {
    entries: Vec<EdgeSpans>,
    tests: u64,
    most: u64,
}

// A view with creases of the usual angle, found through all outlines.
fn counted_view(alloc: Global, solid: &Solid, d: &Dir) -> Result<Counted, OutOfMemory> {
    let picked = pick(alloc, solid, d, Crease::Normal)?;
    let most = bound(solid, &picked);
    let mut sight = SolidSight::new(solid, d);
    let entries = spans_counted(alloc, &mut sight, &picked, &AllOutlines::new(&picked))?;
    Ok(Counted {
        entries,
        tests: sight.tests(),
        most,
    })
}

fn told(span: &CountSpan) -> (Frac, Frac, u32, u32) {
    (span.from, span.to, span.left, span.right)
}

// A span from a half of the edge to another, and its counts to the left and to the right.
type Halves = (i32, i32, u32, u32);

// The spans of an edge are these.
fn has_spans(entries: &[EdgeSpans], number: u32, expected: &[Halves]) -> bool {
    for entry in entries {
        if entry.edge == number {
            return are_spans(&entry.spans, expected);
        }
    }
    false
}

fn are_spans(spans: &[CountSpan], expected: &[Halves]) -> bool {
    for (span, halves) in spans.iter().zip(expected) {
        let (from, to, left, right) = *halves;
        if told(span) != (half(from), half(to), left, right) {
            return false;
        }
    }
    spans.len() == expected.len()
}

// So many halves of an edge.
fn half(number: i32) -> Frac {
    share(number, 2)
}

// The second cube's lower near edge, behind the first cube from its middle on; its lower far edge, behind the first cube up to its
// middle; and an edge of the first cube's front.
const OF_TWO_CUBES: [(u32, &[Halves]); 3] = [
    (22, &[(0, 1, 0, 0), (1, 2, 2, 2)]),
    (19, &[(0, 1, 3, 2), (1, 2, 1, 0)]),
    (4, &[(0, 2, 0, 0)]),
];

#[test]
fn two_cubes(rt: HostRuntime) -> Result<(), Fail> {
    let solid = solid(rt.alloc(), &CORNERS, &CUBES).ok_or("no solid")?;
    let view = counted_view(rt.alloc(), &solid, &Dir::new(0, -1, 0)?)?;
    // 4 runs of 24 triangles, 16 edges by 16 outlines, and 144 triangles at their ends
    assert!(rt; view.entries.len() == 16 && view.most == 1_008);
    assert!(rt; view.tests <= view.most);
    for (edge, expected) in OF_TWO_CUBES {
        assert!(rt; has_spans(&view.entries, edge, expected), "{edge}");
    }
    Ok(())
}

#[test]
fn runs_are_counted(rt: HostRuntime) {
    assert_eq!(rt; count_runs(&[0, 1, 1, 2, 0]), 3);
}

// Adds a span: where the last one is as hidden, it goes on to the end of this one.
fn add_span(
    spans: &mut Vec<(Frac, Frac, bool)>,
    from: Frac,
    to: Frac,
    hidden: bool,
) -> Result<(), AllocError> {
    if let Some(last) = spans.last_mut() {
        if last.2 == hidden {
            last.1 = to;
            return Ok(());
        }
    }
    spans.push((from, to, hidden))?;
    Ok(())
}

// The spans of an edge in a plain view; none of one that is seen end-on.
fn plain(alloc: Global, solid: &Solid, d: &Dir, edge: u32) -> Result<Vec<Span>, OutOfMemory> {
    if is_seen(solid, d, edge) {
        Ok(spans_slow(alloc, solid, &View::Plain(*d), edge)?)
    } else {
        Ok(Vec::new(alloc))
    }
}

// Each span of the plain program, and whether it is hidden.
fn slow(
    alloc: Global,
    solid: &Solid,
    d: &Dir,
    edge: u32,
) -> Result<Vec<(Frac, Frac, bool)>, OutOfMemory> {
    let mut spans = Vec::new(alloc);
    for span in &plain(alloc, solid, d, edge)? {
        add_span(&mut spans, span.from, span.to, span.hidden)?;
    }
    Ok(spans)
}

// The same by the counts, equal neighbours joined: hidden where they aren't both 0.
fn joined(alloc: Global, spans: &[CountSpan]) -> Result<Vec<(Frac, Frac, bool)>, AllocError> {
    let mut all = Vec::new(alloc);
    for span in spans {
        let hidden = span.left != 0 || span.right != 0;
        add_span(&mut all, span.from, span.to, hidden)?;
    }
    Ok(all)
}

// The first edge of a view at which the two differ.
fn first_other(
    alloc: Global,
    solid: &Solid,
    d: &Dir,
    entries: &[EdgeSpans],
) -> Result<Option<u32>, OutOfMemory> {
    for entry in entries {
        if slow(alloc, solid, d, entry.edge)? != joined(alloc, &entry.spans)? {
            return Ok(Some(entry.edge));
        }
    }
    Ok(None)
}

// A view has so many drawn edges and takes no more tests than it may, and on no edge do the two differ.
fn is_right(alloc: Global, solid: &Solid, d: &Dir, drawn: usize) -> Result<bool, OutOfMemory> {
    let view = counted_view(alloc, solid, d)?;
    if view.entries.len() != drawn || view.tests > view.most {
        return Ok(false);
    }
    Ok(first_other(alloc, solid, d, &view.entries)?.is_none())
}

fn check(
    rt: &impl Abort,
    alloc: Global,
    name: &str,
    part: Option<Solid>,
    d: [i64; 3],
    drawn: usize,
) {
    let (Some(part), Ok(d)) = (part, Dir::new(d[0], d[1], d[2])) else {
        panic!(rt; "no {name}");
    };
    assert!(rt; is_right(alloc, &part, &d, drawn) == Ok(true), "{name}");
}

#[test]
fn counts_tell_what_the_plain_program_finds(rt: HostRuntime) {
    let alloc = rt.alloc();
    check(
        &rt,
        alloc,
        "cubes",
        solid(alloc, &CORNERS, &CUBES),
        [0, -1, 0],
        16,
    );
    check(
        &rt,
        alloc,
        "wedge",
        solid(alloc, &CORNERS, &CUBE_AND_WEDGE),
        [0, -1, 0],
        14,
    );
    check(
        &rt,
        alloc,
        "thirds",
        solid_of(alloc, THIRDS_TEXT),
        [0, -1, 0],
        14,
    );
    check(
        &rt,
        alloc,
        "bracket",
        solid_of(alloc, BRACKET_TEXT),
        [1, -2, 1],
        21,
    );
    check(
        &rt,
        alloc,
        "cube",
        solid_of(alloc, CUBE_TEXT),
        [1, -1, 1],
        12,
    );
    check(
        &rt,
        alloc,
        "inward",
        solid_of(alloc, INWARD_TEXT),
        [1, -1, 1],
        24,
    );
    check(
        &rt,
        alloc,
        "welded",
        solid_of(alloc, WELDED_TEXT),
        [1, -1, 1],
        24,
    );
    check(
        &rt,
        alloc,
        "tube",
        solid(alloc, &TUBE_CORNERS, &TUBE),
        [1, -2, 3],
        24,
    );
}

// Numbers of edges of the block: one of the bottom, the bottom's diagonal, one of the top, and one that goes down from the top.
const BOTTOM: u32 = 0;

const DIAGONAL: u32 = 2;

const TOP: u32 = 5;

const DOWN: u32 = 12;

// The spans of an edge in a view that is cut across z; none of one that is seen end-on.
fn cut(alloc: Global, solid: &Solid, from_high: bool, edge: u32) -> Result<Vec<Span>, Fail> {
    let Ok(plane) = Cut::new(Axis::Z, 5000, from_high) else {
        return Err("no cut".into());
    };
    let section = borders(alloc, solid, &plane)?;
    if is_seen(solid, &section.cut.dir(), edge) {
        Ok(spans_slow(alloc, solid, &View::Section(&section), edge)?)
    } else {
        Ok(Vec::new(alloc))
    }
}

// There is no span; or there is one, between these shares of the edge, in 20,000ths.
fn is_one(spans: &[Span], expected: Option<(i32, i32, bool)>) -> bool {
    match (spans, expected) {
        ([], None) => true,
        ([span], Some((from, to, hidden))) => {
            span.from == share(from, 20000) && span.to == share(to, 20000) && span.hidden == hidden
        }
        _ => false,
    }
}

#[test]
fn plain_views(rt: HostRuntime) -> Result<(), Fail> {
    let solid = solid(rt.alloc(), &BLOCK_CORNERS, &CUBES[..12]).ok_or("no solid")?;
    for (z, edge, hidden) in [
        (1, BOTTOM, false),
        (1, DIAGONAL, true),
        (1, TOP, false),
        (1, DOWN, false),
        (-1, BOTTOM, false),
        (-1, DIAGONAL, false),
        (-1, TOP, true),
        (-1, DOWN, true),
    ] {
        let spans = plain(rt.alloc(), &solid, &Dir::new(0, 0, z)?, edge)?;
        assert!(rt; is_one(&spans, Some((0, 20000, hidden))), "{edge} from {z}");
    }
    Ok(())
}

#[test]
fn cut_views(rt: HostRuntime) -> Result<(), Fail> {
    let solid = solid(rt.alloc(), &BLOCK_CORNERS, &CUBES[..12]).ok_or("no solid")?;
    for (from_high, edge, expected) in [
        (true, BOTTOM, Some((0, 20000, false))),
        // what the plane leaves of the sides hides its ends, and the section the rest
        (true, DIAGONAL, Some((0, 20000, true))),
        (true, TOP, None),
        // the plane is half a unit lower
        (true, DOWN, Some((10001, 20000, false))),
        (false, BOTTOM, None),
        (false, DIAGONAL, None),
        // behind the section
        (false, TOP, Some((0, 20000, true))),
        (false, DOWN, Some((0, 9999, true))),
    ] {
        let spans = cut(rt.alloc(), &solid, from_high, edge)?;
        assert!(rt;
            is_one(&spans, expected),
            "{edge} from the high side: {from_high}"
        );
    }
    Ok(())
}
