// That each run has an answer.
ghost use Rattle.std.specs.Prelude.{ℕ, List};
ghost use Rattle.desk.specs.Files.{Files};
ghost use Rattle.draw_core.specs.Run.{RunsDraw};
ghost use Rattle.part_input.specs.Steps.{HasAnswer};

use std::alloc::Global;

/// For all words, files and plotters the steps of a run give something to draw, or a refusal: so what a run is promised to answer isn't
/// empty. The call does nothing; the allocator is that of the vectors of a job.
pub fn runs_have_answers(_alloc: Global)
    ensures { (suffixes words : List (List ℕ)) (files : Files) → HasAnswer (RunsDraw suffixes words files) }
{}
