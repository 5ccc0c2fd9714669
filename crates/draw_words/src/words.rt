// What the words of a run name.
ghost use Rattle.std.specs.Prelude.{◌≡◌, IfOk, IsErrOf, Some, None};
ghost use Rattle.command_words.specs.Seen.{given_seen, texts};
ghost use Rattle.draw_words.specs.Names.{named, named_by};
ghost use Rattle.draw_words.specs.Seen.{named_seen};

use crate::errors::WordsError;
use command_words::{Given, Sentence, WordOption, read};
use dec_text::Name;
use std::alloc::Global;

/// The names of the files of a run: the part's, the job's if there is one, and the drawing's.
#[derive(Debug, Drop)]
pub struct Words {
    pub part: Name,
    pub job: Option<Name>,
    pub out: Name,
}

/// The options.
const OPTIONS: [WordOption<'static>; 2] = [WordOption::Value("job"), WordOption::Value("out")];

/// What the texts name that the words give.
fn names_of(alloc: Global, given: &Given<'_>) -> Result<Words, WordsError>
    ensures names { IfOk result (λ w. named (given_seen given.now) ≡ Some (named_seen w)) }
    ensures usage { IsErrOf result WordsError.Usage → named (given_seen given.now) ≡ None }
{
    if given.is_empty("part") || given.is_empty("job") || given.is_empty("out") {
        return Err(WordsError::Usage);
    }
    let Some(part) = given.text("part") else {
        return Err(WordsError::Usage);
    };
    Ok(Words {
        part: Name::new(alloc, part)?,
        job: given.copied(alloc, "job")?,
        out: Name::new(alloc, given.text("out").unwrap_or("drawing.svg"))?,
    })
}

/// Reads the words behind the program's name, from left to right: `PART`, `--job JOB` or `--job=JOB`, and `--out OUT` or
/// `--out=OUT`. PART is the one plain word, each option is there at most once, and no name is empty. A word that begins
/// with `-` and is longer is refused where it isn't one of these; a value in a word of its own doesn't begin so. Behind the
/// first `--` every word is plain. The time goes with the length of the words.
pub fn read_words(alloc: Global, words: &[String]) -> Result<Words, WordsError>
    ensures names { IfOk result (λ w. named_by (texts words.now) ≡ Some (named_seen w)) }
    ensures usage { IsErrOf result WordsError.Usage → named_by (texts words.now) ≡ None }
{
    match read(alloc, "part", &OPTIONS, words)? {
        Sentence::Refused | Sentence::Help | Sentence::Version => Err(WordsError::Usage),
        Sentence::Given(given) => names_of(alloc, &given),
    }
}
