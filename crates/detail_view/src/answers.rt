// That each run has an answer.
ghost use Rattle.std.specs.Prelude.{Option};
ghost use Rattle.desk.specs.Files.{Files};
ghost use Rattle.detail_view.specs.Run.{RunsPieces};
ghost use Rattle.detail_view.specs.Words.{Asked};
ghost use Rattle.part_input.specs.Steps.{HasAnswer};

use std::alloc::Global;

/// Whatever words ask for, and for all files, the steps of a run give what is asked for, or a refusal: so what a run is promised to answer
/// isn't empty. The call does nothing; the allocator is that of the vectors of a job.
pub fn runs_have_answers(_alloc: Global)
    ensures { (asked : Option Asked) (files : Files) → HasAnswer (RunsPieces asked files) }
{}
