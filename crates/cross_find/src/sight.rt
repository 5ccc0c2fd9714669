// What answers tests on a solid in one direction, and tells no coordinate.
ghost use Rattle.std.specs.Prelude.{◌≡◌, ◌<◌, ◌+◌, ◌^◌, length};
ghost use Rattle.geometry.specs.Parts as parts;
ghost use Rattle.geometry.specs.Parts.{Face, IsNumbered};
ghost use Rattle.geometry.specs.Views.{IsEndOn, IsOutline};
ghost use Rattle.geometry.specs.Covers.{IsCountedNext, IsOneWhere};
ghost use Rattle.geometry.specs.Counts.{to_left, to_right};
ghost use Rattle.geometry.specs.Turns.{number_at, HasTurnedAt};
ghost use Rattle.solid_mesh.specs.Solids.{HasNumbers, AreTrianglesAt};
ghost use Rattle.cross_find.specs.Sights.{SightState, IsSeen, with_test};
ghost use Rattle.cross_find.specs.Crossings.{IsAcross};

use crate::meter::{Crossing, End, Turn};
use solid_mesh::Edge;

/// A sound solid that is seen in one direction. Each test is counted; no call changes the solid or the direction, and none
/// takes memory.
pub trait Sight {
    /// The part, the halves that number its edges, the direction, and how many tests were made.
    ghost sight: { Self → SightState };

    /// The numbers of an edge.
    fn edge(&self, i: u32) -> Edge
        requires { i < length (sight self.now).halves }
        ensures { (e : parts.Edge (sight self.now).part) → IsNumbered (sight self.now).halves i e → HasNumbers e result };

    /// The triangles that have a corner, by their numbers, in order.
    fn star(&self, corner: u32) -> &[u32]
        requires { corner < length (sight self.now).part.corners }
        ensures { AreTrianglesAt (sight self.now).part corner result.now };

    /// The number of triangles, which are a sound part.
    fn triangles(&self) -> u32
        ensures count { result ≡ length (sight self.now).part.triangles }
        ensures seen { IsSeen (sight self.now) };

    /// Where an outline passes nearer over an inner place of an edge and changes one of its counts.
    fn cross(&mut self, edge: u32, outline: u32) -> Option<Crossing>
        requires edge_in_range { edge < length (sight self.old).halves }
        requires outline_in_range { outline < length (sight self.old).halves }
        requires seen { (e : parts.Edge (sight self.old).part) → IsNumbered (sight self.old).halves edge e → ¬ IsEndOn (sight self.old).direction e }
        requires is_outline { (o : parts.Edge (sight self.old).part) → IsNumbered (sight self.old).halves outline o → IsOutline (sight self.old).direction o }
        requires room { (sight self.old).tests + 1 < 2 ^ 64 }
        ensures answer { (e o : parts.Edge (sight self.old).part) → IsNumbered (sight self.old).halves edge e → IsNumbered (sight self.old).halves outline o →
            IsAcross (sight self.old).direction e o result }
        ensures counted { sight self.new ≡ with_test (sight self.old) };

    /// Whether a triangle is counted to the left, and to the right, next to an end of an edge: 1 or 0.
    fn cover(&mut self, end: End, tri: u32) -> (u8, u8)
        requires edge_in_range { end.edge < length (sight self.old).halves }
        requires tri_in_range { tri < length (sight self.old).part.triangles }
        requires seen { (e : parts.Edge (sight self.old).part) → IsNumbered (sight self.old).halves end.edge e → ¬ IsEndOn (sight self.old).direction e }
        requires room { (sight self.old).tests + 1 < 2 ^ 64 }
        ensures left { (e : parts.Edge (sight self.old).part) (f : Face (sight self.old).part) → IsNumbered (sight self.old).halves end.edge e → f.number ≡ tri →
            IsOneWhere (IsCountedNext to_left (sight self.old).direction e end.at_b f) result.0 }
        ensures right { (e : parts.Edge (sight self.old).part) (f : Face (sight self.old).part) → IsNumbered (sight self.old).halves end.edge e → f.number ≡ tri →
            IsOneWhere (IsCountedNext to_right (sight self.old).direction e end.at_b f) result.1 }
        ensures counted { sight self.new ≡ with_test (sight self.old) };

    /// By how much an outline changes the two counts in the turn about a corner, from the end of an edge there to that of another.
    fn turn(&mut self, from: End, to: End, outline: u32) -> Turn
        requires from_in_range { from.edge < length (sight self.old).halves }
        requires to_in_range { to.edge < length (sight self.old).halves }
        requires outline_in_range { outline < length (sight self.old).halves }
        requires from_seen { (e : parts.Edge (sight self.old).part) → IsNumbered (sight self.old).halves from.edge e → ¬ IsEndOn (sight self.old).direction e }
        requires to_seen { (e : parts.Edge (sight self.old).part) → IsNumbered (sight self.old).halves to.edge e → ¬ IsEndOn (sight self.old).direction e }
        requires is_outline { (o : parts.Edge (sight self.old).part) → IsNumbered (sight self.old).halves outline o → IsOutline (sight self.old).direction o }
        requires one_corner { (e f : parts.Edge (sight self.old).part) → IsNumbered (sight self.old).halves from.edge e → IsNumbered (sight self.old).halves to.edge f →
            number_at e from.at_b ≡ number_at f to.at_b }
        requires room { (sight self.old).tests + 1 < 2 ^ 64 }
        ensures left { (e f o : parts.Edge (sight self.old).part) → IsNumbered (sight self.old).halves from.edge e → IsNumbered (sight self.old).halves to.edge f →
            IsNumbered (sight self.old).halves outline o → HasTurnedAt to_left (sight self.old).direction e from.at_b f to.at_b o result.left }
        ensures right { (e f o : parts.Edge (sight self.old).part) → IsNumbered (sight self.old).halves from.edge e → IsNumbered (sight self.old).halves to.edge f →
            IsNumbered (sight self.old).halves outline o → HasTurnedAt to_right (sight self.old).direction e from.at_b f to.at_b o result.right }
        ensures counted { sight self.new ≡ with_test (sight self.old) };
}
