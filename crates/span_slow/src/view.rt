// What is seen of a solid: in a plain view all of it, in a cut view what the plane leaves.
use cut_plane::Section;
use lattice::Dir;

/// What is seen of a solid: all of it along a direction, or what a cut leaves of it, with its section.
#[derive(Clone, Copy)]
pub enum View<'v> {
    Plain(Dir),
    Section(&'v Section),
}
