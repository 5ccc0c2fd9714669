// A view of a job of version 3.
ghost use Rattle.std.specs.Prelude.{◌≡◌, IsTrue, Some};
ghost use Rattle.std.specs.Option.{ForSome};
ghost use Rattle.job_file.specs.Names.{direction_of};
ghost use Rattle.job_file.specs.Texts.{is_title};
ghost use Rattle.sheet_job.specs.ShownSheets.{shown_direction};

use crate::shown::SheetShown;
use dec_text::Name;
use job_file::Principal;

/// A view: what it shows; its name, if it has one; its title, which is empty if there is none; and whether its hidden lines are drawn, if
/// it says so.
#[derive(Drop)]
pub struct SheetView {
    pub shows: SheetShown,
    pub named: Option<Principal>,
    pub title: Name,
    pub hidden: Option<bool>,
    ghost directed: { ForSome named (λ p. shown_direction shows ≡ Some (direction_of p)) },
    ghost proper_title: { IsTrue (is_title title) },
}
