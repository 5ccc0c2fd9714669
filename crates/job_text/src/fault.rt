// What is wrong with a text, and where.
ghost use Rattle.std.specs.Prelude.{◌≡◌, length};
ghost use Rattle.job_text.specs.Readings.{SaysRead, flawed};
ghost use Rattle.toml_parser.specs.declared.error.ParseError.TheVariants as parse;

use exact_frac::OutOfMemory;
use toml_parser::ParseError;

/// What is wrong at a place of a text.
#[derive(Clone, Copy, PartialEq, Eq, Debug)]
pub enum Flaw {
    /// No key is there.
    NoKey,
    /// The key is in quotes.
    QuotedKey,
    /// The key has more than one part.
    DottedKey,
    /// No `=` is there.
    NoEquals,
    /// No closing bracket is there.
    NoBracket,
    /// No value is there.
    NoValue,
    /// A word is there that is no value: a text needs quotes, and a number the form that TOML has.
    BadWord,
    /// The text in quotes has no end on its line, an escape that isn't one, or a control character.
    BrokenText,
    /// The text begins with three quotes.
    LongText,
    /// An inline table begins there.
    InlineTable,
    /// A date or a time is there without quotes.
    BareDate,
    /// The number has other bytes than digits, a sign and a point.
    NoNumber,
    /// A list begins there inside a list.
    InnerList,
    /// Neither a comma nor the closing bracket of a list is there.
    BrokenList,
    /// Something else is on the line.
    More,
    /// A byte order mark is there, or a control character, as a carriage return without a line feed.
    Unprintable,
}

/// Why a text isn't read.
#[derive(Clone, Copy, PartialEq, Eq, Debug)]
pub enum Stop {
    /// It has a flaw, with so many bytes from there to the text's end.
    At(Flaw, usize),
    /// Memory ran out.
    Memory(OutOfMemory),
}

/// The flaw, at the front of this text.
pub(crate) fn flawed(flaw: Flaw, front: &str) -> Stop
    ensures { result ≡ Stop.At flaw (length front.now) }
{
    Stop::At(flaw, front.len())
}

/// The flaw of what a reader of TOML refused, at the front of this text; or that memory ran out.
pub(crate) fn refused(error: ParseError, flaw: Flaw, front: &str) -> Stop
    ensures memory { error ≡ parse.OutOfMemory → result ≡ Stop.Memory (record {}) }
    ensures other { (error ≡ parse.OutOfMemory → ⊥) → result ≡ Stop.At flaw (length front.now) }
{
    match error {
        ParseError::OutOfMemory => Stop::Memory(OutOfMemory),
        ParseError::At(_, _, _) => flawed(flaw, front),
    }
}
