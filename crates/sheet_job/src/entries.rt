// What the entries of a table have at their keys.
ghost use Rattle.std.specs.Prelude.{◌≡◌, [], IsTrue, IfOk, IfSome, codes, map, option_map, option_copied};
ghost use Rattle.lattice.specs.Points.{of_dir};
ghost use Rattle.job_file.specs.CutKeys.{axes, sides};
ghost use Rattle.job_file.specs.Texts.{is_title};
ghost use Rattle.job_tables.specs.Seen.{entry_seen};
ghost use Rattle.job_text.specs.Seen.{written_seen};
ghost use Rattle.sheet_job.specs.SheetJobs.{text_at};
ghost use Rattle.sheet_job.specs.SheetViews.{entry_of, meaning_at, placed_at, name_at, hidden_at};
ghost use Rattle.sheet_job.specs.WrittenValues.{choice_in, title_in, toward_in, is_length, length_in};

use crate::numbers::{length_in, toward_in};
use crate::values::{axis_in, flag_of, name_in, side_in, title_of};
use dec_text::Name;
use exact_frac::OutOfMemory;
use job_file::Principal;
use job_tables::{TableEntry, entry_at};
use job_text::Written;
use lattice::{Axis, Dir};
use std::alloc::Global;

/// The entry at a key.
pub(crate) fn entry_of<'t>(entries: &'t [TableEntry], name: &str) -> Option<&'t TableEntry>
    ensures { option_map (λ e. entry_seen e.now) result ≡ entry_of name.now (map entry_seen entries.now) }
{
    entry_at(entries, name)
}

/// The value at a key.
pub(crate) fn value_at<'t>(entries: &'t [TableEntry], name: &str) -> Option<&'t Written>
    ensures { option_map (λ v. written_seen v.now) result ≡ option_map (λ e. e.value) (entry_of name.now (map entry_seen entries.now)) }
{
    match entry_of(entries, name) {
        Some(entry) => Some(&entry.value),
        None => None,
    }
}

/// The title at a key.
pub(crate) fn title_at<'t>(entries: &'t [TableEntry], name: &str) -> Option<&'t str>
    ensures value { option_copied result ≡ meaning_at title_in name.now (map entry_seen entries.now) }
    ensures proper { IfSome result (λ t. IsTrue (is_title t.now)) }
{
    match value_at(entries, name) {
        Some(value) => title_of(value),
        None => None,
    }
}

/// The empty title.
pub(crate) fn no_title(alloc: Global) -> Result<Name, OutOfMemory>
    ensures empty { IfOk result (λ t. t ≡ []) }
    ensures proper { IfOk result (λ t. IsTrue (is_title t)) }
{
    Ok(Name::new(alloc, "")?)
}

/// The title at a key, or the empty one.
pub(crate) fn text_at(
    alloc: Global,
    entries: &[TableEntry],
    name: &str,
) -> Result<Name, OutOfMemory>
    ensures value { IfOk result (λ t. t ≡ text_at name.now (map entry_seen entries.now)) }
    ensures proper { IfOk result (λ t. IsTrue (is_title t)) }
{
    match title_at(entries, name) {
        Some(title) => Name::new(alloc, title),
        None => no_title(alloc),
    }
}

/// The name of a view, and how many bytes are before it.
pub(crate) fn name_at(entries: &[TableEntry]) -> Option<(Principal, usize)>
    ensures { result ≡ name_at (map entry_seen entries.now) }
{
    match entry_of(entries, "name") {
        Some(entry) => match name_in(&entry.value) {
            Some(name) => Some((name, entry.value_at)),
            None => None,
        },
        None => None,
    }
}

/// The direction of a view.
pub(crate) fn toward_at(entries: &[TableEntry]) -> Option<Dir>
    ensures { option_map of_dir result ≡ meaning_at toward_in (codes "toward") (map entry_seen entries.now) }
{
    match value_at(entries, "toward") {
        Some(value) => toward_in(value),
        None => None,
    }
}

/// The axis of a cut.
pub(crate) fn axis_at(entries: &[TableEntry]) -> Option<Axis>
    ensures { result ≡ meaning_at (choice_in axes) (codes "cut") (map entry_seen entries.now) }
{
    match value_at(entries, "cut") {
        Some(value) => axis_in(value),
        None => None,
    }
}

/// The side of a cut.
pub(crate) fn side_at(entries: &[TableEntry]) -> Option<bool>
    ensures { result ≡ meaning_at (choice_in sides) (codes "from") (map entry_seen entries.now) }
{
    match value_at(entries, "from") {
        Some(value) => side_in(value),
        None => None,
    }
}

/// Whether a view's hidden lines are drawn.
pub(crate) fn hidden_at(entries: &[TableEntry]) -> Option<bool>
    ensures { result ≡ hidden_at (map entry_seen entries.now) }
{
    match value_at(entries, "hidden") {
        Some(value) => flag_of(value),
        None => None,
    }
}

/// The place of a cut, as it is written, and how many bytes are before it.
pub(crate) fn length_at(entries: &[TableEntry]) -> Option<(&[u8], usize)>
    ensures value { option_map (λ p. (p.0.now, p.1)) result ≡ placed_at length_in (codes "at") (map entry_seen entries.now) }
    ensures proper { IfSome result (λ p. IsTrue (is_length p.0.now)) }
{
    match entry_of(entries, "at") {
        Some(entry) => match length_in(&entry.value) {
            Some(word) => Some((word, entry.value_at)),
            None => None,
        },
        None => None,
    }
}
