// What the words of a run ask for.
ghost use Rattle.std.specs.Prelude.{◌≡◌, IfOk, IsErrOf, Some, None, codes, option_copied, option_map};
ghost use Rattle.command_words.specs.Seen.{given_seen, texts};
ghost use Rattle.sheet_words.specs.Names.{asked_by, clash, goal_named, goal_of, shares_place, share_place, hidden_named, hidden_by, has_empty_name, list_named, named};
ghost use Rattle.sheet_words.specs.Seen.{asked_seen, goal_seen, list_seen, named_seen};

use crate::said::SaidTexts;
use crate::said_words::said_in;
use command_words::{Given, Sentence, WordOption, read};
use dec_text::Name;
use draw_words::WordsError;
use exact_frac::OutOfMemory;
use sheet_job::Hidden;
use std::alloc::Global;

/// Where a sheet goes.
#[derive(Debug, Drop)]
pub enum Out {
    /// It is said, as SVG.
    Said,
    /// Into the file of this name, as SVG.
    Svg(Name),
    /// Into the file of this name, as PDF.
    Pdf(Name),
}

/// Where a list of strokes or a plain job goes.
#[derive(Debug, Drop)]
pub enum ListOut {
    /// It is said.
    Said,
    /// Into the file of this name.
    File(Name),
}

/// Which part is drawn, by which job if one is named, where it goes, its list and its plain job if there are any, in which views hidden
/// lines are drawn if that is said, and what is said for the title block.
#[derive(Debug, Drop)]
pub struct SheetRequest {
    pub part: Name,
    pub job: Option<Name>,
    pub out: Out,
    pub list: Option<ListOut>,
    pub plain: Option<ListOut>,
    pub hidden: Option<Hidden>,
    pub said: SaidTexts,
}

/// What words ask for.
#[derive(Debug, Drop)]
pub enum Asked {
    Help,
    Version,
    Sheet(SheetRequest),
}

/// Where the sheet goes by a name.
fn out_named(alloc: Global, name: &str) -> Result<Out, WordsError>
    ensures goal { IfOk result (λ out. goal_named name.now ≡ Some (goal_seen out)) }
    ensures usage { IsErrOf result WordsError.Usage → goal_named name.now ≡ None }
{
    if name == "-" {
        Ok(Out::Said)
    } else if name.ends_with(".svg") {
        Ok(Out::Svg(Name::new(alloc, name)?))
    } else if name.ends_with(".pdf") {
        Ok(Out::Pdf(Name::new(alloc, name)?))
    } else {
        Err(WordsError::Usage)
    }
}

/// Where the sheet goes.
fn goal_of(alloc: Global, given: &Given<'_>) -> Result<Out, WordsError>
    ensures goal { IfOk result (λ out. goal_of (given_seen given.now (codes "out")) ≡ Some (goal_seen out)) }
    ensures usage { IsErrOf result WordsError.Usage → goal_of (given_seen given.now (codes "out")) ≡ None }
{
    match given.text("out") {
        None => out_named(alloc, "sheet.svg"),
        Some(name) => out_named(alloc, name),
    }
}

/// Where a list goes by a name, if there is one.
fn list_named(alloc: Global, name: Option<&str>) -> Result<Option<ListOut>, OutOfMemory>
    ensures { IfOk result (λ list. option_map list_seen list ≡ option_map list_named (option_copied name.entry)) }
{
    match name {
        Some("-") => Ok(Some(ListOut::Said)),
        Some(name) => Ok(Some(ListOut::File(Name::new(alloc, name)?))),
        None => Ok(None),
    }
}

/// There is a list, and it goes where the sheet goes.
fn shares_place(list: &Option<ListOut>, out: &Out) -> bool
    ensures { result ≡ shares_place (option_map list_seen list.now) (goal_seen out.now) }
{
    match (list, out) {
        (Some(ListOut::Said), Out::Said) => true,
        (Some(ListOut::File(list)), Out::Svg(out) | Out::Pdf(out)) => list.as_str() == out.as_str(),
        _ => false,
    }
}

/// The two go to one place.
fn share_place(one: &Option<ListOut>, other: &Option<ListOut>) -> bool
    ensures { result ≡ share_place (option_map list_seen one.now) (option_map list_seen other.now) }
{
    match (one, other) {
        (Some(ListOut::Said), Some(ListOut::Said)) => true,
        (Some(ListOut::File(one)), Some(ListOut::File(other))) => one.as_str() == other.as_str(),
        _ => false,
    }
}

/// Two of the texts go to one place.
fn clash(out: &Out, list: &Option<ListOut>, plain: &Option<ListOut>) -> bool
    ensures { result ≡ clash (goal_seen out.now) (option_map list_seen list.now) (option_map list_seen plain.now) }
{
    shares_place(list, out) || shares_place(plain, out) || share_place(list, plain)
}

/// Which hidden lines are drawn by a word.
fn hidden_named(word: &str) -> Option<Hidden>
    ensures { result ≡ hidden_named word.now }
{
    match word {
        "all" => Some(Hidden::All),
        "plain" => Some(Hidden::Plain),
        "none" => Some(Hidden::Never),
        _ => None,
    }
}

/// Which hidden lines are drawn by the text that the words give, if they give one.
fn hidden_by(given: &Given<'_>) -> Result<Option<Hidden>, WordsError>
    ensures hidden { IfOk result (λ hidden. hidden_by (given_seen given.now (codes "hidden")) ≡ Some hidden) }
    ensures usage { IsErrOf result WordsError.Usage → hidden_by (given_seen given.now (codes "hidden")) ≡ None }
{
    match given.text("hidden") {
        None => Ok(None),
        Some(word) => match hidden_named(word) {
            Some(hidden) => Ok(Some(hidden)),
            None => Err(WordsError::Usage),
        },
    }
}

/// A name of a file is there, and it is empty.
fn has_empty_name(given: &Given<'_>) -> bool
    ensures { result ≡ has_empty_name (given_seen given.now) }
{
    given.is_empty("part")
        || given.is_empty("job")
        || given.is_empty("list")
        || given.is_empty("plain-job")
}

/// What is asked for by the texts that the words give.
fn request_of(alloc: Global, given: &Given<'_>) -> Result<SheetRequest, WordsError>
    ensures named { IfOk result (λ r. named (given_seen given.now) ≡ Some (named_seen r)) }
    ensures usage { IsErrOf result WordsError.Usage → named (given_seen given.now) ≡ None }
{
    if has_empty_name(given) {
        return Err(WordsError::Usage);
    }
    let Some(part) = given.text("part") else {
        return Err(WordsError::Usage);
    };
    let hidden = hidden_by(given)?;
    let out = goal_of(alloc, given)?;
    let list = list_named(alloc, given.text("list"))?;
    let plain = list_named(alloc, given.text("plain-job"))?;
    let said = said_in(alloc, given)?;
    if clash(&out, &list, &plain) {
        return Err(WordsError::Usage);
    }
    Ok(SheetRequest {
        part: Name::new(alloc, part)?,
        job: given.copied(alloc, "job")?,
        out,
        list,
        plain,
        hidden,
        said,
    })
}

/// The options.
const OPTIONS: [WordOption<'static>; 12] = [
    WordOption::Value("job"),
    WordOption::Value("out"),
    WordOption::Value("list"),
    WordOption::Value("plain-job"),
    WordOption::Value("hidden"),
    WordOption::Value("title"),
    WordOption::Value("number"),
    WordOption::Value("revision"),
    WordOption::Value("material"),
    WordOption::Value("date"),
    WordOption::Help("help"),
    WordOption::Version("version"),
];

/// Reads the words after the program's name, from left to right: `PART`, and `--job JOB`, `--out OUT`, `--list LIST`,
/// `--plain-job FILE`, `--hidden all|plain|none`, `--title TEXT`, `--number TEXT`, `--revision TEXT`, `--material TEXT` and
/// `--date TEXT`, or these with `=`. PART is the one plain word, and each option is there at most once. A word
/// that begins with `-` and is longer is refused where it isn't one of these; a value in a word of its own doesn't begin so.
/// After the first `--` every word is plain. The first of `--help` and `--version` asks for help, or for the version,
/// whatever follows.
///
/// PART, JOB, LIST and FILE aren't empty. OUT is `-`, or ends in `.svg` or `.pdf`; without it the sheet goes to `sheet.svg`. LIST and
/// FILE are `-` or any other name, but neither OUT's nor one another's, to the byte; without them there is no list, and no plain job. Each
/// TEXT is one that a title may be. The time goes with the length of the words.
pub fn read_words(alloc: Global, words: &[String]) -> Result<Asked, WordsError>
    ensures asked { IfOk result (λ asked. asked_by (texts words.now) ≡ Some (asked_seen asked)) }
    ensures usage { IsErrOf result WordsError.Usage → asked_by (texts words.now) ≡ None }
{
    match read(alloc, "part", &OPTIONS, words)? {
        Sentence::Refused => Err(WordsError::Usage),
        Sentence::Help => Ok(Asked::Help),
        Sentence::Version => Ok(Asked::Version),
        Sentence::Given(given) => Ok(Asked::Sheet(request_of(alloc, &given)?)),
    }
}
