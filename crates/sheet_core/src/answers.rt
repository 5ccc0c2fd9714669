// That each run has an answer.
ghost use Rattle.std.specs.Prelude.{ℕ, List};
ghost use Rattle.desk.specs.Files.{Files};
ghost use Rattle.part_input.specs.Steps.{HasAnswer};
ghost use Rattle.sheet_core.specs.Run.{RunsSheet};
ghost use Rattle.sheet_words.specs.Names.{asked_by};

use std::alloc::Global;

/// For all words and all files, the steps of a run give something to draw, nothing where none is asked for, or a refusal: so
/// what a run is promised to answer isn't empty. The call does nothing; the allocator is that of the vectors of a job.
pub fn runs_have_answers(_alloc: Global)
    ensures { (words : List (List ℕ)) (files : Files) → HasAnswer (RunsSheet (asked_by words) files) }
{}
