// A triangle with the bound that flips carry.
use lattice::Tri;

/// A triangle, and how far its points may be from the surface that was given, in 1024ths of a unit.
#[derive(Clone, Copy, Debug, PartialEq, Eq)]
pub struct Bounded {
    pub tri: Tri,
    pub bound: u32,
}
