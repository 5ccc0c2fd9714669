//! Outlines, and triangles, in grids of cells over a view, so that along an edge and over a corner only those are tested that are
//! near it.
//!
//! The view's range of U and V is cut into columns and rows, as many of the one as of the other; a cell has its left and its lower
//! border and not the others. Each outline is put into the cells that hold a point of its projection, and each drawn edge gets
//! the list of the outlines in the cells that hold a point of its own: what crosses the edge in the view crosses it in one of
//! them. A corner has the outlines of its cell. So `GridOutlines` is a `Finder`, whose lists are short where a view is wide.
//!
//! An edge is walked from column to column (as a line is drawn on a raster, Foley and van Dam), each time over the rows between
//! that in which it comes in and that in which it leaves, by whole numbers. So no cell is looked at that holds no point of it, and
//! there are at most as many as its columns and rows less one. An edge's list is made without a search in it: each outline has a
//! stamp, the last edge that took it.
//!
//! A second grid, `NearTriangles`, has the triangles, each in the cells that the box of its U and V meets; near a corner are those of
//! its cell. Its columns are so few that the boxes together meet at most eight cells for each triangle. To make it takes a number of
//! steps that is linear in the corners and the triangles, by a meter of its own.
#![tactic(auto)]

mod bounds;
mod boxes;
mod corners;
mod course;
mod grid;
mod halving;
mod listing;
mod lists;
mod meter;
mod near;
mod places;
mod putting;
mod raster;

pub use bounds::cell_bound;
pub use grid::GridOutlines;
pub use meter::{CellMeter, NearMeter};
pub use near::NearTriangles;
