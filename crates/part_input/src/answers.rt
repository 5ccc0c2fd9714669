// That each step of a run has an answer.
ghost use Rattle.std.specs.Prelude.{ℕ, List, Option};
ghost use Rattle.dec_text.specs.declared.number.Length.{Length};
ghost use Rattle.desk.specs.Files.{Files};
ghost use Rattle.part_input.specs.Jobs.{TakesReadJob};
ghost use Rattle.part_input.specs.Parts.{TakesSoup, TakesSolid};
ghost use Rattle.part_input.specs.Sheets.{DrawsPart};
ghost use Rattle.part_input.specs.Steps.{HasAnswer};

use std::alloc::Global;

/// Each step of a run has an answer, whatever files there are and whatever they hold: a job is taken and read, or refused, a part's soup
/// and its solid are, and a part is drawn by a job, or refused. So what a run is promised to answer isn't empty. The call does nothing;
/// the allocator is that of the vectors of a job.
pub fn steps_have_answers(_alloc: Global)
    ensures jobs { (files : Files) (name : Option (List ℕ)) → HasAnswer (TakesReadJob files name) }
    ensures soups { (files : Files) (name : List ℕ) (decimals : ℕ) (unit : Length) → HasAnswer (TakesSoup files name decimals unit) }
    ensures solids { (files : Files) (name : List ℕ) (decimals : ℕ) (unit : Length) → HasAnswer (TakesSolid files name decimals unit) }
    ensures drawings { (files : Files) (part : List ℕ) (job : Option (List ℕ)) → HasAnswer (DrawsPart files part job) }
{}
