// Views of cuts: the counts along their drawn edges.
use crate::runs;
use draw_core::Drawing;
use exact_frac::Frac;
use std::alloc::Global;
use std::test::Fail;
use view_lines::ViewDrawing;

// A block with a square bore along its height.
pub(crate) const TUBE: &str =
    "OFF 16 16 0\n0 0 0 30 0 0 30 30 0 0 30 0 10 10 0 20 10 0 20 20 0 10 20 0 0 0 20 30 0 20 30 30 20 0 30 20 10 10 20 20 10 20 20 20 20 10 20 20\n4 0 1 9 8\n4 1 2 10 9\n4 2 3 11 10\n4 3 0 8 11\n4 5 4 12 13\n4 6 5 13 14\n4 7 6 14 15\n4 4 7 15 12\n4 8 9 13 12\n4 9 10 14 13\n4 10 11 15 14\n4 11 8 12 15\n4 1 0 4 5\n4 2 1 5 6\n4 3 2 6 7\n4 0 3 7 4\n";

// A corner of a cube, whose normals point inward.
const INWARD: &str = "OFF 4 4 0\n0 0 0 10 0 0 0 10 0 0 0 10\n3 1 2 0\n3 3 1 0\n3 2 3 0\n3 3 2 1\n";

// A span, and its two counts.
type Counted = (Frac, Frac, u32, u32);

fn drawn(alloc: Global, part: &str, job: &str) -> Result<Drawing, Fail> {
    runs::drawn(alloc, "--job j p", part, job)
}

// The spans of an edge in a view.
fn spans_of(alloc: Global, view: Option<&ViewDrawing>, edge: u32) -> Result<Vec<Counted>, Fail> {
    let mut told = Vec::new(alloc);
    for entry in &view.ok_or("no view")?.counts {
        if entry.edge == edge {
            for span in &entry.spans {
                told.push((span.from, span.to, span.left, span.right))?;
            }
        }
    }
    Ok(told)
}

// The back edge of the tube's top, over the bore: the bore's far wall ends there below it.
#[test]
fn a_wall_ends_below_an_edge(rt: HostRuntime) -> Result<(), Fail> {
    let alloc = rt.alloc();
    let job = "[[view]]\ncut = \"y\"\nat = 15000\nfrom = \"low\"\n";
    let drawing = drawn(alloc, TUBE, job)?;
    assert_eq!(rt;
        (drawing.cut_meter.tests > 0, drawing.cut_bound),
        (true, 1280)
    );
    let (third, two_thirds) = (Frac { num: 1, den: 3 }, Frac { num: 2, den: 3 });
    let mut some = false;
    for (from, to, left, right) in spans_of(alloc, drawing.views.first(), 12)? {
        // Beside the bore the section's border is above it.
        if from >= third && to <= two_thirds {
            some = true;
            assert_eq!(rt; (left, right), (0, 1));
        }
    }
    assert!(rt; some);
    Ok(())
}

// A plane before the part takes nothing away.
#[test]
fn a_plane_before_the_part(rt: HostRuntime) -> Result<(), Fail> {
    let alloc = rt.alloc();
    let job = "[[view]]\nname = \"front\"\n[[view]]\ncut = \"y\"\nat = -1000\nfrom = \"low\"\n";
    let drawing = drawn(alloc, TUBE, job)?;
    let mut some = false;
    for edge in 0..drawing.solid.edges() {
        let plain = spans_of(alloc, drawing.views.first(), edge)?;
        let cut = spans_of(alloc, drawing.views.last(), edge)?;
        some = some || !plain.is_empty();
        assert_eq!(rt; plain, cut, "{edge}");
    }
    assert!(rt; some);
    Ok(())
}

// Beyond the place over which the slanted face meets the plane that face is above the lower edge; before it the section's border is.
#[test]
fn normals_that_point_inward(rt: HostRuntime) -> Result<(), Fail> {
    let alloc = rt.alloc();
    let job = "[[view]]\ncut = \"z\"\nat = 5000\nfrom = \"high\"\n";
    let drawing = drawn(alloc, INWARD, job)?;
    let slant = Frac {
        num: 10_001,
        den: 20_000,
    };
    let mut some = false;
    for (from, _, left, right) in spans_of(alloc, drawing.views.first(), 2)? {
        if from >= slant {
            some = true;
            assert_eq!(rt; left.saturating_add(right), 1);
        }
    }
    assert!(rt; some);
    Ok(())
}
