// What is wrong with a header or a key.
ghost use Rattle.std.specs.Prelude.{◌≡◌, IfOk, string_bytes};
ghost use Rattle.flaw_lines.specs.FlawTexts.{table_hint_text, unknown_table_text, key_in_text, table_flaw_text};

use crate::key_lines::{meant_text, unknown_key_text};
use crate::views::in_view_text;
use fault_lines::shown;
use job_tables::{KeyHint, TableFlaw, TableKind};
use std::alloc::{AllocError, Global};

/// What an unknown table may have been meant to be.
fn table_hint_text(alloc: Global, near: &Option<&'static str>) -> Result<String, AllocError>
    ensures { IfOk result (λ text. string_bytes text ≡ table_hint_text near.now) }
{
    match near {
        Some(near) => meant_text(alloc, *near),
        None => String::from_str(alloc, "[block] and [[view]] are known"),
    }
}

/// A header of a table that no job has.
fn unknown_table_text(
    alloc: Global,
    name: &str,
    near: &Option<&'static str>,
) -> Result<String, AllocError>
    ensures { IfOk result (λ text. string_bytes text ≡ unknown_table_text name.now near.now) }
{
    let (table, hint) = (shown(alloc, name)?, table_hint_text(alloc, near)?);
    format!(in alloc; "unknown table {table}: {hint}")
}

/// A key that its table doesn't have, in which view it is.
fn key_in_text(
    alloc: Global,
    kind: TableKind,
    view: Option<u32>,
    name: &str,
    hint: &KeyHint,
) -> Result<String, AllocError>
    ensures { IfOk result (λ text. string_bytes text ≡ key_in_text kind view name.now hint.now) }
{
    let (place, text) = (
        in_view_text(alloc, view)?,
        unknown_key_text(alloc, kind, name, hint)?,
    );
    format!(in alloc; "{place}{text}")
}

/// What is wrong with a header or a key.
pub(crate) fn table_flaw_text(alloc: Global, flaw: &TableFlaw) -> Result<String, AllocError>
    ensures { IfOk result (λ text. string_bytes text ≡ table_flaw_text flaw.now) }
{
    match flaw {
        TableFlaw::UnknownTable(name, near) => unknown_table_text(alloc, name.as_str(), near),
        TableFlaw::SingleView => String::from_str(alloc, "[view]: a view begins with [[view]]"),
        TableFlaw::DoubleBlock => {
            String::from_str(alloc, "[[block]]: the title block begins with [block]")
        }
        TableFlaw::SecondBlock => String::from_str(alloc, "[block] is there twice"),
        TableFlaw::TooManyViews => String::from_str(alloc, "more than 12 views"),
        TableFlaw::EmptyBlock => {
            String::from_str(alloc, "[block] has no key: give it one or leave it out")
        }
        TableFlaw::UnknownKey(kind, view, name, hint) => {
            key_in_text(alloc, *kind, *view, name.as_str(), hint)
        }
    }
}
