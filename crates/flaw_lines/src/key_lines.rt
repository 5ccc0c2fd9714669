// What is wrong with a key, and what it may have been meant to be.
ghost use Rattle.std.specs.Prelude.{◌≡◌, IfOk, string_bytes};
ghost use Rattle.flaw_lines.specs.FlawTexts.{meant_text, home_text, keys_text, header_text, hint_text, unknown_key_text};

use fault_lines::shown;
use job_tables::{KeyHint, TableKind};
use std::alloc::{AllocError, Global};

/// A known word that is spelt nearly so.
pub(crate) fn meant_text(alloc: Global, near: &str) -> Result<String, AllocError>
    ensures { IfOk result (λ text. string_bytes text ≡ meant_text near.now) }
{
    format!(in alloc; "{near} is meant?")
}

/// Where the keys of a table belong.
fn home_text(kind: TableKind) -> &'static str
    ensures { result.now ≡ home_text kind }
{
    match kind {
        TableKind::Job => "it belongs before the first [block] or [[view]]",
        TableKind::Block => "it belongs in [block]",
        TableKind::View => "it belongs in [[view]]",
    }
}

/// Which keys a table has.
fn keys_text(kind: TableKind) -> &'static str
    ensures { result.now ≡ keys_text kind }
{
    match kind {
        TableKind::Job => {
            "the job has version, title, unit, decimals, sheet, layout, angle, scale, crease and hidden"
        }
        TableKind::Block => {
            "[block] has number, type, material, author, approved, date, revision, company, tolerances and note"
        }
        TableKind::View => "a view has name, toward, cut, at, from, title and hidden",
    }
}

/// How a table begins that has this name.
fn header_text(name: &str) -> &'static str
    ensures { result.now ≡ header_text name.now }
{
    if name == "block" {
        "[block] begins the title block"
    } else {
        "[[view]] begins a view"
    }
}

/// What an unknown key of a table may have been meant to be.
fn hint_text(
    alloc: Global,
    kind: TableKind,
    name: &str,
    hint: &KeyHint,
) -> Result<String, AllocError>
    ensures { IfOk result (λ text. string_bytes text ≡ hint_text kind name.now hint.now) }
{
    match hint {
        KeyHint::In(other) => String::from_str(alloc, home_text(*other)),
        KeyHint::Older => String::from_str(alloc, "only versions 1 and 2 have it"),
        KeyHint::Header => String::from_str(alloc, header_text(name)),
        KeyHint::Near(near) => meant_text(alloc, *near),
        KeyHint::Unlike => String::from_str(alloc, keys_text(kind)),
    }
}

/// A key that its table doesn't have.
pub(crate) fn unknown_key_text(
    alloc: Global,
    kind: TableKind,
    name: &str,
    hint: &KeyHint,
) -> Result<String, AllocError>
    ensures { IfOk result (λ text. string_bytes text ≡ unknown_key_text kind name.now hint.now) }
{
    let (key, hint) = (shown(alloc, name)?, hint_text(alloc, kind, name, hint)?);
    format!(in alloc; "unknown key {key}: {hint}")
}
