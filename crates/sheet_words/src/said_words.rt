// What the words say for the title block.
ghost use Rattle.std.specs.Prelude.{◌≡◌, IfOk, IsErrOf, Some, None};
ghost use Rattle.command_words.specs.Seen.{given_seen};
ghost use Rattle.sheet_words.specs.Names.{said_by, said_in};
ghost use Rattle.sheet_words.specs.Seen.{said_seen};
ghost use Rattle.sheet_words.specs.Titles.{IsProper};

use crate::said::SaidTexts;
use command_words::Given;
use dec_text::Name;
use draw_words::WordsError;
use job_file::is_title;
use std::alloc::Global;

/// The text that the words say under this name, if they do.
fn said_by(alloc: Global, given: &Given<'_>, name: &str) -> Result<Option<Name>, WordsError>
    ensures said { IfOk result (λ text. said_by (given_seen given.now name.now) ≡ Some text) }
    ensures proper { IfOk result IsProper }
    ensures usage { IsErrOf result WordsError.Usage → said_by (given_seen given.now name.now) ≡ None }
{
    match given.text(name) {
        None => Ok(None),
        Some(text) if is_title(text) => Ok(Some(Name::new(alloc, text)?)),
        Some(_) => Err(WordsError::Usage),
    }
}

/// What the words say of the title and of the title block.
pub(crate) fn said_in(alloc: Global, given: &Given<'_>) -> Result<SaidTexts, WordsError>
    ensures said { IfOk result (λ s. said_in (given_seen given.now) ≡ Some (said_seen s)) }
    ensures usage { IsErrOf result WordsError.Usage → said_in (given_seen given.now) ≡ None }
{
    Ok(SaidTexts {
        title: said_by(alloc, given, "title")?,
        number: said_by(alloc, given, "number")?,
        revision: said_by(alloc, given, "revision")?,
        material: said_by(alloc, given, "material")?,
        date: said_by(alloc, given, "date")?,
    })
}
