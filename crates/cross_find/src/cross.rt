// Where an outline passes nearer over an edge, and what it changes there of the counts along the edge.
ghost use Rattle.std.specs.Prelude.{◌≡◌, ◌⊎◌, ◌↔◌, ◌+◌, ◌<◌, ◌≤◌, ◌^◌, ◌-ℤ◌, ◌*ℤ◌, ◌<ℤ◌, length, pos, unsigned_abs, MatchOption, IfSome, IsTrue};
ghost use Rattle.lattice.specs.Points.{of_dir};
ghost use Rattle.lattice.specs.Triple.{det};
ghost use Rattle.geometry.specs.Faces.{difference};
ghost use Rattle.geometry.specs.Parts.{Edge, IsNumbered};
ghost use Rattle.geometry.specs.Places.{IsPlace};
ghost use Rattle.geometry.specs.Views.{face_sign};
ghost use Rattle.solid_mesh.specs.Solids.{solid_part, edge_halves};
ghost use Rattle.geometry.specs.Counts.{to_left, to_right, orientation_of};
ghost use Rattle.geometry.specs.Shares.{mark};
ghost use Rattle.cross_find.specs.Lines.{PassesBy, IsInner, IsInnerForward, IsCrossedBy};
ghost use Rattle.cross_find.specs.Crossings.{IsAcross};

use crate::edges::{ends, orientation_of};
use crate::meter::{Crossing, Meter};
use exact_frac::Frac;
use lattice::{Corner, Dir, Vector, det3, view_cross};
use solid_mesh::Solid;

/// Where the ends of an outline are seen: positive to the left of an edge's line, 0 on it.
#[derive(Clone, Copy)]
pub struct Sides {
    pub from: i128,
    pub to: i128,
    ghost from_small: { unsigned_abs from < 2 ^ 48 },
    ghost to_small: { unsigned_abs to < 2 ^ 48 },
}

/// Two lines as they are seen: they cross at the place numerator / denominator of the first.
#[derive(Clone, Copy)]
struct TwoLines {
    denominator: i128,
    numerator: i128,
    ghost denominator_small: { unsigned_abs denominator < 2 ^ 49 },
    ghost numerator_small: { unsigned_abs numerator < 2 ^ 48 },
}

/// What is changed of the count to the left, and of the count to the right.
#[derive(Clone, Copy)]
pub struct CountChanges {
    pub left: i8,
    pub right: i8,
    ghost left_small: { unsigned_abs left ≤ 4 },
    ghost right_small: { unsigned_abs right ≤ 4 },
}

/// Where an outline passes nearer over an inner place of an edge and changes one of the counts along it. Takes constant time and
/// no memory: two determinants where both ends of the outline are seen to one side of the edge's line.
pub fn cross_test(
    solid: &Solid,
    d: &Dir,
    edge: u32,
    outline: u32,
    meter: &mut Meter,
) -> Option<Crossing>
    requires edge_in_range { edge < length (edge_halves solid.now) }
    requires outline_in_range { outline < length (edge_halves solid.now) }
    requires room { meter.old.tests + 1 < 2 ^ 64 }
    ensures answer { (e o : Edge (solid_part solid.now)) → IsNumbered (edge_halves solid.now) edge e → IsNumbered (edge_halves solid.now) outline o →
        IsAcross (of_dir d.now) e o result }
    ensures counted { meter.new.tests ≡ meter.old.tests + 1 }
{
    meter.tests += 1;
    let (a, b) = ends(solid, edge);
    let (p, q) = ends(solid, outline);
    let sides = sides_of(d, &a, &b, &p, &q);
    // Most outlines lie to one side of the edge's line, and no more is formed for them.
    if are_alike(sides.from, sides.to) {
        return None;
    }
    let Some(at) = passing(d, &a, &b, &p, &q, &sides) else {
        return None;
    };
    let CountChanges { left, right } = count_changes(
        turn_of(solid, d, outline),
        sides.from,
        sides.to,
    );
    if left == 0 && right == 0 {
        return None;
    }
    Some(Crossing { at, left, right })
}

/// Where `p` and `q` are seen to the line from `a` to `b`.
pub fn sides_of(d: &Dir, a: &Corner, b: &Corner, p: &Corner, q: &Corner) -> Sides
    ensures from { result.from ≡ orientation_of (of_dir d.now) a.now b.now p.now }
    ensures to { result.to ≡ orientation_of (of_dir d.now) a.now b.now q.now }
{
    Sides {
        from: orientation_of(d, a, b, p),
        to: orientation_of(d, a, b, q),
    }
}

/// Both numbers are above 0, both below, or both 0: two ends of an outline that are seen so change no count.
fn are_alike(x: i128, y: i128) -> bool
    ensures { IsTrue result ↔ (((pos 0 <ℤ x) × (pos 0 <ℤ y)) ⊎ ((x <ℤ pos 0) × (y <ℤ pos 0)) ⊎ ((x ≡ pos 0) × (y ≡ pos 0))) }
{
    (x > 0 && y > 0) || (x < 0 && y < 0) || (x == 0 && y == 0)
}

/// The inner place of the line from `a` to `b` at which that from `p` to `q`, whose ends are seen at these sides, is seen to cross
/// it, strictly nearer. The height there is formed last, since many lines cross outside.
pub fn passing(
    d: &Dir,
    a: &Corner,
    b: &Corner,
    p: &Corner,
    q: &Corner,
    sides: &Sides,
) -> Option<Frac>
    ensures place { IfSome result IsPlace }
    ensures answer { let over = difference p.now q.now in
        let way = difference a.now p.now in
        let denominator = sides.now.to -ℤ sides.now.from in
        let numerator = det (of_dir d.now) way over in
        let height_numerator = det (difference a.now b.now) over way in
        MatchOption result (¬ PassesBy denominator numerator height_numerator) (λ r. PassesBy denominator numerator height_numerator × IsCrossedBy denominator numerator r) }
{
    let x = lines(d, a, p, q, sides);
    let Some(at) = inner_place(&x) else {
        return None;
    };
    if !is_nearer(x.denominator, height_numerator(a, b, p, q)) {
        return None;
    }
    Some(at)
}

/// How the line from `p` to `q`, whose ends are seen at these sides of a line from `a`, is seen to cross that line.
fn lines(d: &Dir, a: &Corner, p: &Corner, q: &Corner, sides: &Sides) -> TwoLines
    ensures denominator { result.denominator ≡ sides.now.to -ℤ sides.now.from }
    ensures numerator { result.numerator ≡ det (of_dir d.now) (difference a.now p.now) (difference p.now q.now) }
{
    TwoLines {
        denominator: sides.to - sides.from,
        numerator: view_cross(d, &Vector::between(a, p), &Vector::between(p, q)),
    }
}

/// How much higher the line from `p` to `q` is than that from `a` to `b` where they are seen to cross, times the denominator there.
fn height_numerator(a: &Corner, b: &Corner, p: &Corner, q: &Corner) -> i128
    ensures value { result ≡ det (difference a.now b.now) (difference p.now q.now) (difference a.now p.now) }
    ensures size { unsigned_abs result < 2 ^ 66 }
{
    det3(
        &Vector::between(a, b),
        &Vector::between(p, q),
        &Vector::between(a, p),
    )
}

/// The inner place of the first line at which the second is seen to cross it.
fn inner_place(x: &TwoLines) -> Option<Frac>
    ensures { MatchOption result (¬ IsInner x.now.denominator x.now.numerator) (λ r. IsInner x.now.denominator x.now.numerator × IsCrossedBy x.now.denominator x.now.numerator r) }
{
    if x.denominator > 0 {
        place_within(x)
    } else {
        place_within(&turned(x))
    }
}

/// The same two with the other sign.
fn turned(x: &TwoLines) -> TwoLines
    ensures denominator { result.denominator ≡ pos 0 -ℤ x.now.denominator }
    ensures numerator { result.numerator ≡ pos 0 -ℤ x.now.numerator }
{
    TwoLines {
        denominator: -x.denominator,
        numerator: -x.numerator,
    }
}

/// The same, where denominator is at least 0.
fn place_within(x: &TwoLines) -> Option<Frac>
    ensures { MatchOption result (¬ IsInnerForward x.now.denominator x.now.numerator) (λ r. IsInnerForward x.now.denominator x.now.numerator × (r.num ≡ x.now.numerator) × (r.den ≡ x.now.denominator)) }
{
    if x.numerator <= 0 || x.numerator >= x.denominator {
        return None;
    }
    Some(Frac {
        num: x.numerator,
        den: x.denominator,
    })
}

/// The quotient of a height's numerator and its denominator is above 0.
fn is_nearer(denominator: i128, height_numerator: i128) -> bool
    ensures { IsTrue result ↔ (((pos 0 <ℤ denominator) × (pos 0 <ℤ height_numerator)) ⊎ ((denominator <ℤ pos 0) × (height_numerator <ℤ pos 0))) }
{
    (denominator > 0 && height_numerator > 0) || (denominator < 0 && height_numerator < 0)
}

/// The sign of the face to the left of an edge, less that of the face to its right.
pub fn turn_of(solid: &Solid, d: &Dir, edge: u32) -> i8
    requires { edge < length (edge_halves solid.now) }
    ensures value { (e : Edge (solid_part solid.now)) → IsNumbered (edge_halves solid.now) edge e →
        result ≡ face_sign (of_dir d.now) e.left -ℤ face_sign (of_dir d.now) e.right }
    ensures size { unsigned_abs result ≤ 2 }
{
    let numbers = solid.edge(edge);
    solid.sign(d, numbers.left) - solid.sign(d, numbers.right)
}

/// 1 where a corner counts as standing to the left for the left count, by the turn to it, else 0.
pub fn left_mark(turn: i128) -> i8
    ensures value { result ≡ mark to_left turn }
    ensures size { unsigned_abs result ≤ 1 }
{
    if turn > 0 { 1 } else { 0 }
}

/// The same for the right count.
pub fn right_mark(turn: i128) -> i8
    ensures value { result ≡ mark to_right turn }
    ensures size { unsigned_abs result ≤ 1 }
{
    if turn >= 0 { 1 } else { 0 }
}

/// What an outline changes of a count, by the marks of its two corners.
pub fn times(turn: i8, from: i8, to: i8) -> i8
    requires turn { unsigned_abs turn ≤ 2 }
    requires from { unsigned_abs from ≤ 1 }
    requires to { unsigned_abs to ≤ 1 }
    ensures value { result ≡ turn *ℤ (from -ℤ to) }
    ensures size { unsigned_abs result ≤ 4 }
{
    turn * (from - to)
}

/// So many times what the way from one end to another, which are seen at these sides of an edge's line, changes of either mark.
pub fn count_changes(turn: i8, from: i128, to: i128) -> CountChanges
    requires { unsigned_abs turn ≤ 2 }
    ensures left { result.left ≡ turn *ℤ (mark to_left from -ℤ mark to_left to) }
    ensures right { result.right ≡ turn *ℤ (mark to_right from -ℤ mark to_right to) }
{
    CountChanges {
        left: times(turn, left_mark(from), left_mark(to)),
        right: times(turn, right_mark(from), right_mark(to)),
    }
}
