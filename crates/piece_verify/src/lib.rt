//! Judges lists of pieces: whether a list, from this program or any other, is the one right list of a part and a job, and else where it
//! first isn't.
//!
//! A text is read as the list of a page and strokes, or the first line is told at which it can't be one: each column of a line is read
//! exactly, so that what is read is what is written, and what is refused is no column of a list. The pieces that are wanted are
//! found by a direct test of all faces along each edge: neither carried counts nor a grid have any part in it, so that it is a second
//! opinion on a drawing that is made by them.
#![tactic(auto)]

mod check;
mod columns;
mod compare;
mod digits;
mod fractions;
mod line;
mod list;
mod marks;
mod pairs;
mod slow_views;
mod split;

pub use check::{Verdict, check_list, view_dir, view_strips};
pub use line::Entry;
pub use list::{ListError, ListFault, PieceList, list_fault, read_list};
