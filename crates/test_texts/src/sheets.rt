// Where corners of the cube of 10 mm stand on a sheet, strokes, hatch lines, and the text of a sheet from strokes that were made by
// hand.
ghost use Rattle.std.specs.Prelude.{◌≡◌, length, IfOk};

use dec_text::Name;
use exact_frac::{Frac, OutOfMemory};
use job_file::Scale;
use lattice::{Corner, Dir, HatchLine, Piece, Spot, Style};
use sheet_plan::{Mark, Sheet, Spread, Stroke, extent};
use solid_mesh::Solid;
use std::alloc::Global;
use std::test::Fail;
use svg_page::svg;
use test_fixtures::{CUBE_TEXT, solid_of};

// A sheet of A3 with one view, at this scale.
fn a3(alloc: Global, d: Dir, y0: i16, scale: Scale) -> Result<Sheet, OutOfMemory>
    ensures { IfOk result (λ sheet. length sheet.places.items ≡ 1) }
{
    let mut places = Vec::new(alloc);
    places.push(Spread {
        d,
        x0: 2000,
        y0: i64::from(y0),
    })?;
    Ok(Sheet {
        width: 42000,
        height: 29700,
        decimals: 3,
        scale,
        places,
    })
}

fn spot(corner: &[i16; 3]) -> Spot {
    Spot::at(&Corner {
        x: corner[0].into(),
        y: corner[1].into(),
        z: corner[2].into(),
    })
}

// The direction, and from where to where the cube reaches to the right and upward.
const EXTENTS: [([i64; 3], [i64; 4]); 4] = [
    ([0, -1, 0], [0, 10000, 0, 10000]),
    ([0, 1, 0], [-10000, 0, 0, 10000]),
    ([0, 0, 1], [0, 10000, 0, 10000]),
    ([1, -1, 1], [0, 20000, -10000, 30000]),
];

fn extent_from(solid: &Solid, d: &[i64; 3]) -> Option<[i64; 4]> {
    let d = Dir::new(d[0], d[1], d[2]).ok()?;
    let e = extent(solid, &d);
    Some([e.u_min, e.u_max, e.v_min, e.v_max])
}

#[test]
fn extents_of_the_cube(rt: HostRuntime) {
    let Some(solid) = solid_of(rt.alloc(), CUBE_TEXT) else {
        panic!(rt; "no cube");
    };
    for (d, expected) in &EXTENTS {
        assert!(rt; extent_from(&solid, d) == Some(*expected), "{d:?}");
    }
}

const CORNERS: [([i16; 3], (i64, i64)); 8] = [
    ([0, 0, 0], (2000, 3225)),
    ([10_000, 0, 0], (2707, 3633)),
    ([10_000, 10_000, 0], (3414, 3225)),
    ([0, 10_000, 0], (2707, 2817)),
    ([0, 0, 10_000], (2000, 2409)),
    ([10_000, 0, 10_000], (2707, 2817)),
    ([10_000, 10_000, 10_000], (3414, 2409)),
    ([0, 10_000, 10_000], (2707, 2000)),
];

#[test]
fn corners_of_the_cube_seen_from_above_a_corner(rt: HostRuntime) -> Result<(), Fail> {
    let d = Dir::new(1, -1, 1)?;
    let sheet = a3(rt.alloc(), d, 3225, Scale { num: 1, den: 1 })?;
    for (corner, place) in &CORNERS {
        assert!(rt; sheet.point(0, &spot(corner)) == *place, "{corner:?}");
    }
    Ok(())
}

#[test]
fn halves_are_rounded_up(rt: HostRuntime) -> Result<(), Fail> {
    let d = Dir::new(0, -1, 0)?;
    let full = a3(rt.alloc(), d, 0, Scale { num: 1, den: 1 })?;
    let half = a3(rt.alloc(), d, 0, Scale { num: 1, den: 2 })?;
    let up = Spot {
        x: 20005,
        y: 0,
        z: -20005,
        w: 1,
    };
    let down = Spot {
        x: -20005,
        y: 0,
        z: 20005,
        w: 1,
    };
    let thirds = Spot {
        x: 20000,
        y: 0,
        z: 0,
        w: 3,
    };
    let quarters = Spot {
        x: 35005,
        y: 0,
        z: 0,
        w: 4,
    };
    assert!(rt; full.point(0, &up) == (4001, 2000));
    assert!(rt; full.point(0, &down) == (0, -2001));
    assert!(rt; full.point(0, &thirds) == (2667, 0));
    assert!(rt; half.point(0, &quarters) == (2438, 0));
    Ok(())
}

fn dashed_piece() -> Piece {
    Piece {
        a: Spot {
            x: 10000,
            y: 0,
            z: 10000,
            w: 2,
        },
        b: Spot {
            x: 70010,
            y: 8,
            z: 80000,
            w: 8,
        },
        style: Style::Dashed,
    }
}

fn is(x: &Frac, num: i128, den: i128) -> bool {
    x.num == num && x.den == den
}

// It is a stroke of this mark between two points of the sheet.
fn is_drawn(s: &Stroke, mark: Mark, ends: [i64; 4]) -> bool {
    s.view == 0 && s.mark == mark && [s.x1, s.y1, s.x2, s.y2] == ends
}

#[test]
fn a_stroke_in_lowest_terms(rt: HostRuntime) -> Result<(), Fail> {
    let d = Dir::new(0, -1, 0)?;
    let sheet = a3(rt.alloc(), d, 4500, Scale { num: 1, den: 1 })?;
    let piece = dashed_piece();
    let s = sheet.stroke(0, &piece);
    assert!(rt; is(&s.u1, 5000, 1) && is(&s.v1, 5000, 1));
    assert!(rt; is(&s.u2, 35005, 4) && is(&s.v2, 10000, 1));
    assert!(rt; is_drawn(&s, Mark::Dashed, [2500, 4000, 2875, 3500]));
    let line = HatchLine {
        a: piece.a,
        b: piece.b,
    };
    let s = sheet.hatch_stroke(0, &line);
    assert!(rt; is_drawn(&s, Mark::Hatch, [2500, 4000, 2875, 3500]));
    Ok(())
}

#[test]
fn hatch_lines_are_3_mm_apart(rt: HostRuntime) -> Result<(), Fail> {
    let d = Dir::new(0, -1, 0)?;
    let mut sheet = a3(rt.alloc(), d, 4500, Scale { num: 1, den: 1 })?;
    assert!(rt; sheet.spacing() == 3000);
    sheet.scale = Scale { num: 20, den: 1 };
    assert!(rt; sheet.spacing() == 150);
    sheet.decimals = 0;
    assert!(rt; sheet.spacing() == 1);
    sheet.scale = Scale { num: 1, den: 100 };
    assert!(rt; sheet.spacing() == 300);
    Ok(())
}

// A title with bytes that have names, and a second view with a dashed stroke and a hatch line.
const TITLED: &str = "<?xml version=\"1.0\" encoding=\"UTF-8\"?>\n\
     <svg xmlns=\"http://www.w3.org/2000/svg\" width=\"420mm\" height=\"297mm\" viewBox=\"0 0 42000 29700\">\n\
     <rect x=\"1000\" y=\"1000\" width=\"40000\" height=\"27700\" fill=\"none\" stroke=\"black\" stroke-width=\"70\"/>\n\
     <text x=\"2000\" y=\"27900\" font-family=\"sans-serif\" font-size=\"700\">A &amp; B &lt;1&gt;&quot;</text>\n\
     <g stroke=\"black\" fill=\"none\">\n\
     </g>\n\
     <g stroke=\"black\" fill=\"none\">\n\
     <line x1=\"2500\" y1=\"3000\" x2=\"-2500\" y2=\"3000\" stroke-width=\"35\" stroke-dasharray=\"300 150\"/>\n\
     <line x1=\"2500\" y1=\"3000\" x2=\"3500\" y2=\"2000\" stroke-width=\"18\"/>\n\
     </g>\n\
     </svg>\n";

// A stroke between two points of the sheet.
pub(crate) fn stroke(view: u8, mark: Mark, from: (i64, i64), to: (i64, i64)) -> Stroke
    ensures { result.view ≡ view }
{
    let zero = Frac { num: 0, den: 1 }.reduce();
    Stroke {
        view: u32::from(view),
        mark,
        u1: zero,
        v1: zero,
        u2: zero,
        v2: zero,
        x1: from.0,
        y1: from.1,
        x2: to.0,
        y2: to.1,
    }
}

// A sheet with two views from the front.
fn two_views(alloc: Global) -> Result<Sheet, Fail>
    ensures { IfOk result (λ sheet. length sheet.places.items ≡ 2) }
{
    let d = Dir::new(0, -1, 0)?;
    let mut sheet = a3(alloc, d, 3000, Scale { num: 1, den: 1 })?;
    sheet.places.push(Spread {
        d,
        x0: 2000,
        y0: 3000,
    })?;
    Ok(sheet)
}

#[test]
fn a_title_and_a_view_without_strokes(rt: HostRuntime) -> Result<(), Fail> {
    let sheet = two_views(rt.alloc())?;
    let title = Name::new(rt.alloc(), "A & B <1>\"")?;
    let strokes = [
        stroke(1, Mark::Dashed, (2500, 3000), (-2500, 3000)),
        stroke(1, Mark::Hatch, (2500, 3000), (3500, 2000)),
    ];
    let text = svg(rt.alloc(), &sheet, &title, &strokes)?;
    assert!(rt; text.as_slice() == TITLED.as_bytes());
    Ok(())
}
