//! How a drawing tells its cuts: each cut has a letter, its view is headed by it, by the place of the cut and by the view's title, and
//! where another view sees the cut's plane edge-on, a chain line crosses the view's whole box, with a strong end, an arrow in the viewing
//! direction and the letter outside the box at both ends.
//!
//! In one view no strong end, arrow or letter of a mark touches one of another mark, or the view's box; chain lines may cross arrows, and
//! letters where there is no other place.
//!
//! All lengths are in hundredths of a millimetre on the sheet. Marks and headings end within their view's box with the sides that the view
//! asks for (`sides_for`). No two such boxes overlap on a sheet, so that marks and headings reach no other view (lemma `clear`).
//! The cost is a few passes over the part's corners for each view and cut.
//!
//! `mark_items` says what they are on a page: a text stands with its middle at its place, by the widths of Helvetica's letters. A
//! heading's room is its view's box with its sides, less 5 mm. A heading that would be wider is set smaller. Then its title is cut, and at
//! last the place is left out: it is never cut, as half a number would be another one.
#![tactic(auto)]

mod areas;
mod asked_sides;
mod axes;
mod figures;
mod heading_rooms;
mod heading_texts;
mod headings;
mod items;
mod job_marks;
mod lanes;
mod letters;
mod mark_letters;
mod note_lines;
mod sections;
mod shown;
mod traces;
mod views;
mod ways;

pub use asked_sides::sides_for;
pub use axes::axis_name;
pub use figures::{CutMark, Heading, MarkEnd, SheetPoint};
pub use items::mark_items;
pub use job_marks::marks;
pub use letters::letter_of;
pub use note_lines::notes;
pub use views::ViewMarks;
