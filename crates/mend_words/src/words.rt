// What the words of a run ask for.
ghost use Rattle.std.specs.Prelude.{◌≡◌, IfOk, IsErrOf, Some, None};
ghost use Rattle.command_words.specs.Seen.{given_seen, texts};
ghost use Rattle.mend_words.specs.Names.{asked_by, goal_named, named};
ghost use Rattle.mend_words.specs.Seen.{asked_seen, goal_seen, named_seen};

use crate::numbers::number;
use crate::request::{Asked, MendRequest, Out};
use command_words::{Given, Sentence, WordOption, read};
use dec_text::Name;
use draw_words::WordsError;
use exact_frac::OutOfMemory;
use std::alloc::Global;

/// The options.
const OPTIONS: [WordOption<'static>; 5] = [
    WordOption::Value("out"),
    WordOption::Value("decimals"),
    WordOption::Value("limit"),
    WordOption::Help("help"),
    WordOption::Version("version"),
];

/// Where the part goes by a name.
fn out_named(alloc: Global, name: &str) -> Result<Out, OutOfMemory>
    ensures { IfOk result (λ out. goal_seen out ≡ goal_named name.now) }
{
    if name == "-" {
        Ok(Out::Said)
    } else {
        Ok(Out::File(Name::new(alloc, name)?))
    }
}

/// What is asked for by the texts that the words give.
fn request_of(alloc: Global, given: &Given<'_>) -> Result<MendRequest, WordsError>
    ensures named { IfOk result (λ r. named (given_seen given.now) ≡ Some (named_seen r)) }
    ensures usage { IsErrOf result WordsError.Usage → named (given_seen given.now) ≡ None }
{
    if given.is_empty("part") || given.is_empty("out") {
        return Err(WordsError::Usage);
    }
    let Some(part) = given.text("part") else {
        return Err(WordsError::Usage);
    };
    let Some(decimals) = number(given.text("decimals").unwrap_or("3").as_bytes(), 1, 6) else {
        return Err(WordsError::Usage);
    };
    let Some(limit) = number(given.text("limit").unwrap_or("4").as_bytes(), 3, 100) else {
        return Err(WordsError::Usage);
    };
    Ok(MendRequest {
        part: Name::new(alloc, part)?,
        out: out_named(alloc, given.text("out").unwrap_or("mended.off"))?,
        decimals: decimals as u8,
        limit,
    })
}

/// Reads the words behind the program's name, from left to right: `PART`, and `--out OUT`, `--decimals K` and `--limit N`, or
/// these with `=`. PART is the one plain word, and each option is there at most once. A word that begins with `-` and is longer
/// is refused where it isn't one of these; a value in a word of its own doesn't begin so. Behind the first `--` every word is
/// plain. The first of `--help` and `--version` asks for help, or for the version, whatever follows.
///
/// PART and OUT aren't empty. OUT is `-`, or any other name; without it the part goes to `mended.off`. K is one digit, from 0 to
/// 6, and 3 without it; N has 1 to 3 digits and is at most 100, and 4 without it. The time goes with the length of the words.
pub fn read_words(alloc: Global, words: &[String]) -> Result<Asked, WordsError>
    ensures asked { IfOk result (λ asked. asked_by (texts words.now) ≡ Some (asked_seen asked)) }
    ensures usage { IsErrOf result WordsError.Usage → asked_by (texts words.now) ≡ None }
{
    match read(alloc, "part", &OPTIONS, words)? {
        Sentence::Refused => Err(WordsError::Usage),
        Sentence::Help => Ok(Asked::Help),
        Sentence::Version => Ok(Asked::Version),
        Sentence::Given(given) => Ok(Asked::Mend(request_of(alloc, &given)?)),
    }
}
