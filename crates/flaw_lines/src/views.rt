// What is wrong with a view.
ghost use Rattle.std.specs.Prelude.{◌≡◌, IfOk, string_bytes};
ghost use Rattle.flaw_lines.specs.FlawTexts.{principal_text, counted_text, in_view_text, view_label, without_cut_text, view_flaw_text, placed_view_text, at_range_text};

use crate::keys::key_name;
use job_file::Principal;
use sheet_job::{SheetKey, ViewFlaw};
use std::alloc::{AllocError, Global};

/// The name of a view.
fn principal_text(name: Principal) -> &'static str
    ensures { result.now ≡ principal_text name }
{
    match name {
        Principal::Front => "front",
        Principal::Back => "back",
        Principal::Left => "left",
        Principal::Right => "right",
        Principal::Above => "above",
        Principal::Below => "below",
    }
}

/// The number of a view, which a line counts from 1.
fn counted_text(alloc: Global, number: u32) -> Result<String, AllocError>
    ensures { IfOk result (λ text. string_bytes text ≡ counted_text number) }
{
    let counted = u64::from(number) + 1;
    format!(in alloc; "{counted}")
}

/// In which view it is, if in one.
pub(crate) fn in_view_text(alloc: Global, view: Option<u32>) -> Result<String, AllocError>
    ensures { IfOk result (λ text. string_bytes text ≡ in_view_text view) }
{
    let Some(number) = view else {
        return Ok(String::new(alloc));
    };
    let counted = counted_text(alloc, number)?;
    format!(in alloc; "view {counted}: ")
}

/// A view by its name, or by its number.
fn view_label(alloc: Global, number: u32, name: Option<Principal>) -> Result<String, AllocError>
    ensures { IfOk result (λ text. string_bytes text ≡ view_label number name) }
{
    match name {
        Some(name) => String::from_str(alloc, principal_text(name)),
        None => counted_text(alloc, number),
    }
}

/// A key that is there without `cut`.
fn without_cut_text(alloc: Global, key: SheetKey) -> Result<String, AllocError>
    ensures { IfOk result (λ text. string_bytes text ≡ without_cut_text key) }
{
    let key = key_name(key);
    format!(in alloc; "{key} goes with cut only")
}

/// What is wrong with a view.
fn view_flaw_text(alloc: Global, flaw: ViewFlaw) -> Result<String, AllocError>
    ensures { IfOk result (λ text. string_bytes text ≡ view_flaw_text flaw) }
{
    match flaw {
        ViewFlaw::Form => String::from_str(alloc, "exactly one of name, toward and cut is wanted"),
        ViewFlaw::WithoutCut(key) => without_cut_text(alloc, key),
        ViewFlaw::WithoutAt => String::from_str(alloc, "cut goes with at, the plane's place"),
        ViewFlaw::WithoutFrom => String::from_str(alloc, "cut goes with from, \"high\" or \"low\""),
        ViewFlaw::NameTaken => String::from_str(alloc, "an earlier view has this name"),
    }
}

/// In which view it is, and what is wrong.
pub(crate) fn placed_view_text(
    alloc: Global,
    flaw: ViewFlaw,
    number: u32,
    name: Option<Principal>,
) -> Result<String, AllocError>
    ensures { IfOk result (λ text. string_bytes text ≡ placed_view_text flaw number name) }
{
    let (label, text) = (
        view_label(alloc, number, name)?,
        view_flaw_text(alloc, flaw)?,
    );
    format!(in alloc; "view {label}: {text}")
}

/// A cut that is at too many units.
pub(crate) fn at_range_text(alloc: Global, number: u32) -> Result<String, AllocError>
    ensures { IfOk result (λ text. string_bytes text ≡ at_range_text number) }
{
    let counted = counted_text(alloc, number)?;
    format!(in alloc;
        "view {counted}: at is too far from 0: at most 10485.76 mm with 2 decimals, a tenth of that with each decimal more"
    )
}
