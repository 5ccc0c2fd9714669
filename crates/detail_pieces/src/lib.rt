//! Details of views: what a view shows in a window, and the page that it stands on.
//!
//! The strips of the view are clipped to the window, and then put together as those of a whole view are: so what the window cuts is
//! whole and in order by the same rules, and needs no pass of its own.
//!
//! Each strip goes through the four half planes whose common part is the window (Sutherland and Hodgman's order of work, for
//! lines). An end that is outside of one is put where the strip's line meets its border. That place has a small divisor, since
//! the line's numbers are whole; a spot that is seen there is found by going from the foot of its line of sight into the box
//! where spots are, one axis after another. All decisions are signs of whole numbers. The sheet is as large as the window, with a margin
//! of 20 mm.
#![tactic(auto)]

mod clipping;
mod crossings;
mod details;
mod halves;
mod page;
mod places;
mod reaches;
mod sheet;
mod sides;
mod spots;
mod windows;

pub use clipping::clip;
pub use details::detail_of;
pub use page::detail_text;
pub use windows::Window;
