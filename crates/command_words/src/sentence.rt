// What words come to by a table of options.
ghost use Rattle.std.specs.Prelude.{◌≡◌, Some, IfOk, option_copied, map, true};
ghost use Rattle.command_words.specs.Grammar.{is_empty_value, is_table, reading_of};
ghost use Rattle.command_words.specs.Seen.{given_seen, sentence_seen, table_seen, texts};
ghost use Rattle.command_words.specs.inner.App.{reading_by};

use crate::command::table_command;
use crate::table::WordOption;
use clap::ArgMatches;
use clap::error::ErrorKind;
use dec_text::Name;
use exact_frac::OutOfMemory;
use std::alloc::Global;

/// The texts that words give, each under its name.
#[derive(Drop)]
pub struct Given<'a> {
    matches: ArgMatches<'a>,
}

impl<'a> Given<'a> {
    /// The text under a name, if there is one. A flag that is there has the empty text.
    pub fn text(&self, name: &str) -> Option<&'a str>
        ensures { option_copied result ≡ given_seen self.now name.now }
    {
        self.matches.get_str(name)
    }

    /// The text under a name is there, and it is empty.
    pub fn is_empty(&self, name: &str) -> bool
        ensures { result ≡ is_empty_value (given_seen self.now name.now) }
    {
        match self.text(name) {
            Some(text) => text.is_empty(),
            None => false,
        }
    }

    /// A copy of the text under a name, if there is one.
    pub fn copied(&self, alloc: Global, name: &str) -> Result<Option<Name>, OutOfMemory>
        ensures { IfOk result (λ copy. copy ≡ given_seen self.now name.now) }
    {
        match self.text(name) {
            Some(text) => Ok(Some(Name::new(alloc, text)?)),
            None => Ok(None),
        }
    }
}

/// What words come to.
#[derive(Drop)]
pub enum Sentence<'a> {
    /// They are no sentence of the grammar.
    Refused,
    Help,
    Version,
    Given(Given<'a>),
}

/// What an error of this kind says of the words: it may be the answer to words that ask.
fn answered<'a>(kind: ErrorKind) -> Result<Sentence<'a>, OutOfMemory>
    ensures { IfOk result (λ s. reading_by kind ≡ Some (sentence_seen s)) }
{
    match kind {
        ErrorKind::DisplayHelp => Ok(Sentence::Help),
        ErrorKind::DisplayVersion => Ok(Sentence::Version),
        ErrorKind::OutOfMemory => Err(OutOfMemory),
        _ => Ok(Sentence::Refused),
    }
}

/// Reads the words behind a program's name, from left to right: a plain word, which is given under the name `plain`, and the
/// options of a table, `--NAME`, or `--NAME VALUE` or `--NAME=VALUE` where the option takes a value. The plain word and each
/// option are there at most once. A word that begins with `-` and is longer is refused where it isn't one of the options; a value
/// in a word of its own doesn't begin so. Behind the first `--` every word is plain. The first option that asks for help, or
/// for the version, is answered, whatever follows. The time goes with the length of the words, times that of the table.
pub fn read<'a>(
    alloc: Global,
    plain: &'a str,
    options: &[WordOption<'a>],
    words: &'a [String],
) -> Result<Sentence<'a>, OutOfMemory>
    requires { is_table (table_seen plain.now options.now) ≡ true }
    ensures { IfOk result (λ s. reading_of (table_seen plain.entry.now options.now) (texts words.entry.now) ≡ sentence_seen s) }
{
    let command = table_command(alloc, plain, options)?;
    match command.try_get_matches_from(words) {
        Ok(matches) => Ok(Sentence::Given(Given { matches })),
        Err(error) => answered(error.kind()),
    }
}
