// That each run has an answer.
ghost use Rattle.std.specs.Prelude.{Option};
ghost use Rattle.desk.specs.Files.{Files};
ghost use Rattle.mend_core.specs.Run.{RunsMend, Takes};
ghost use Rattle.mend_words.specs.Names.{Asks};
ghost use Rattle.part_input.specs.Steps.{HasAnswer};

/// Whatever words ask for, and for all files, the steps of a run give a mended part, nothing where none is asked for, or a refusal: so
/// what a run is promised to answer isn't empty. Up to the part that is mended they have an answer too. The call does nothing.
pub fn runs_have_answers()
    ensures runs { (asked : Option Asks) (files : Files) → HasAnswer (RunsMend asked files) }
    ensures parts { (asked : Option Asks) (files : Files) → HasAnswer (Takes asked files) }
{}
