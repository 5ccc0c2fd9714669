//! What a run of `sheet` says of a sheet that it has drawn: the paper, the numbers of paths and the part's size, the place of each cut,
//! what of the cuts isn't told as usual, and which views have lines that are near one another.
#![tactic(auto)]

mod cuts;
mod ends;
mod near;
mod summary;

pub use summary::summary_of;
