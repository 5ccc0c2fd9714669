// What a view of a job of version 3 shows.
use crate::cut::SheetCut;
use lattice::Dir;

/// The whole part from a direction, or what a cut leaves of it.
#[derive(Drop)]
pub enum SheetShown {
    Plain(Dir),
    Cut(SheetCut),
}
