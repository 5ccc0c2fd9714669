// The command of a table, as `clap` reads it.
ghost use Rattle.std.specs.Prelude.{◌≡◌, IfOk, Some, false};
ghost use Rattle.clap.specs.Simple.{app_of, new_rule};
ghost use Rattle.clap.specs.Walk.{rule_of};
ghost use Rattle.command_words.specs.Seen.{option_seen, table_seen};
ghost use Rattle.command_words.specs.inner.App.{option_rule, plain_app, plain_rule, table_app};

use crate::table::WordOption;
use clap::{Arg, ArgAction, Command};
use std::alloc::{AllocError, Global};

/// The plain word.
fn plain_arg<'a>(alloc: Global, name: &'a str) -> Arg<'a>
    ensures rule { rule_of result ≡ plain_rule name.entry.now }
    ensures local { result.global ≡ false }
{
    Arg::new(alloc, name).action(ArgAction::Set)
}

/// An option before its action is set.
fn named_arg<'a>(alloc: Global, name: &'a str) -> Arg<'a>
    ensures rule { rule_of result ≡ record (new_rule name.entry.now) { long = Some name.entry.now } }
    ensures local { result.global ≡ false }
{
    Arg::new(alloc, name).long(name)
}

/// An option. A flag is one whose uses have no value, and the empty text stands for it.
fn option_arg<'a>(alloc: Global, option: WordOption<'a>) -> Arg<'a>
    ensures rule { rule_of result ≡ option_rule (option_seen option.entry).purpose (option_seen option.entry).name }
    ensures local { result.global ≡ false }
{
    match option {
        WordOption::Value(name) => named_arg(alloc, name).action(ArgAction::Set),
        WordOption::Flag(name) => named_arg(alloc, name)
            .action(ArgAction::Set)
            .num_args(0)
            .default_missing_value(""),
        WordOption::Help(name) => named_arg(alloc, name).action(ArgAction::Help),
        WordOption::Version(name) => named_arg(alloc, name).action(ArgAction::Version),
    }
}

/// The command without its options.
fn plain_command<'a>(alloc: Global, plain: &'a str) -> Result<Command<'a>, AllocError>
    ensures { IfOk result (λ c. app_of c ≡ plain_app plain.entry.now) }
{
    Command::new(alloc, "words")
        .no_binary_name(true)
        .disable_help_flag(true)
        .disable_version_flag(true)
        .arg(plain_arg(alloc, plain))
}

/// The command of a table.
pub(crate) fn table_command<'a>(
    alloc: Global,
    plain: &'a str,
    options: &[WordOption<'a>],
) -> Result<Command<'a>, AllocError>
    ensures { IfOk result (λ c. app_of c ≡ table_app (table_seen plain.entry.now options.now)) }
{
    let mut command = plain_command(alloc, plain)?;
    for option in options {
        command = command.arg(option_arg(alloc, *option))?;
    }
    Ok(command)
}
