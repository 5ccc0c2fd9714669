// The values of the job's own table, or the usual ones.
ghost use Rattle.std.specs.Prelude.{◌≡◌, ◌≤◌, false, None, Some, IsTrue, IfOk, IfSome, codes, map, option_map};
ghost use Rattle.std.specs.Option.{ForSome};
ghost use Rattle.job_file.specs.Documents.{angles, creases, fits, layouts, lengths};
ghost use Rattle.job_file.specs.Papers.{papers};
ghost use Rattle.job_file.specs.Seen.{scale_seen};
ghost use Rattle.job_file.specs.Texts.{is_title};
ghost use Rattle.job_tables.specs.Seen.{entry_seen};
ghost use Rattle.sheet_job.specs.SheetViews.{entry_of, meaning_at, or_usual};
ghost use Rattle.sheet_job.specs.WrittenValues.{is_fit, choice_in, title_in, hiddens, decimals_in};

use crate::entries::{title_at, value_at};
use crate::hidden::Hidden;
use crate::numbers::decimals_in;
use crate::values::{
    crease_in, hidden_in, is_fit, layout_in, paper_in, projection_in, scale_in, unit_in,
};
use dec_text::{Length, Name};
use exact_frac::OutOfMemory;
use job_file::{Paper, Scale};
use job_tables::TableEntry;
use lattice::Crease;
use std::alloc::Global;

/// The number of decimals.
pub(crate) fn decimals(entries: &[TableEntry]) -> Option<u8>
    ensures value { result ≡ or_usual None (meaning_at decimals_in (codes "decimals") (map entry_seen entries.now)) }
    ensures few { ForSome result (λ n. n ≤ 6) }
{
    value_at(entries, "decimals")
        .and_then(decimals_in)
        .unwrap_or(None)
}

/// Third-angle projection, or not.
pub(crate) fn third(entries: &[TableEntry]) -> bool
    ensures { result ≡ or_usual false (meaning_at (choice_in angles) (codes "angle") (map entry_seen entries.now)) }
{
    value_at(entries, "angle")
        .and_then(projection_in)
        .unwrap_or(false)
}

/// The paper.
pub(crate) fn paper(entries: &[TableEntry]) -> Paper
    ensures { result ≡ or_usual Paper.A3 (meaning_at (choice_in papers) (codes "sheet") (map entry_seen entries.now)) }
{
    value_at(entries, "sheet")
        .and_then(paper_in)
        .unwrap_or(Paper::A3)
}

/// Whether the least sheet on which the views fit is taken.
pub(crate) fn any_paper(entries: &[TableEntry]) -> bool
    ensures { result ≡ or_usual false (option_map (λ e. is_fit e.value) (entry_of (codes "sheet") (map entry_seen entries.now))) }
{
    match value_at(entries, "sheet") {
        Some(value) => is_fit(value),
        None => false,
    }
}

/// The scale.
pub(crate) fn scale(entries: &[TableEntry]) -> Option<Scale>
    ensures { option_map scale_seen result ≡ or_usual None (meaning_at (choice_in fits) (codes "scale") (map entry_seen entries.now)) }
{
    match value_at(entries, "scale") {
        Some(value) => match scale_in(value) {
            Some(scale) => scale,
            None => None,
        },
        None => None,
    }
}

/// The creases.
pub(crate) fn crease(entries: &[TableEntry]) -> Crease
    ensures { result ≡ or_usual Crease.Normal (meaning_at (choice_in creases) (codes "crease") (map entry_seen entries.now)) }
{
    value_at(entries, "crease")
        .and_then(crease_in)
        .unwrap_or(Crease::Normal)
}

/// The title.
pub(crate) fn title(alloc: Global, entries: &[TableEntry]) -> Result<Option<Name>, OutOfMemory>
    ensures value { IfOk result (λ t. t ≡ meaning_at title_in (codes "title") (map entry_seen entries.now)) }
    ensures proper { IfOk result (λ t. ForSome t (λ text. IsTrue (is_title text))) }
{
    match title_at(entries, "title") {
        Some(title) => Ok(Some(Name::new(alloc, title)?)),
        None => Ok(None),
    }
}

/// What lengths are given in.
pub(crate) fn unit(entries: &[TableEntry]) -> Length
    ensures { result ≡ or_usual Length.Millimetre (meaning_at (choice_in lengths) (codes "unit") (map entry_seen entries.now)) }
{
    value_at(entries, "unit")
        .and_then(unit_in)
        .unwrap_or(Length::Millimetre)
}

/// Whether the sheet stands upright.
pub(crate) fn portrait(entries: &[TableEntry]) -> bool
    ensures { result ≡ or_usual false (meaning_at (choice_in layouts) (codes "layout") (map entry_seen entries.now)) }
{
    value_at(entries, "layout")
        .and_then(layout_in)
        .unwrap_or(false)
}

/// In which views hidden lines are drawn.
pub(crate) fn hidden(entries: &[TableEntry]) -> Hidden
    ensures { result ≡ or_usual Hidden.Plain (meaning_at (choice_in hiddens) (codes "hidden") (map entry_seen entries.now)) }
{
    value_at(entries, "hidden")
        .and_then(hidden_in)
        .unwrap_or(Hidden::Plain)
}
