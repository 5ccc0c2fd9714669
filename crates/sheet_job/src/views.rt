// The views of a job of version 3.
ghost use Rattle.std.specs.Prelude.{◌≡◌, [], ℕ, ◌<◌, ◌≤◌, ◌^◌, List, IsFalse, IfOk, None, Some, All, length, map, option_map};
ghost use Rattle.std.specs.List.{AllPairs, list_any};
ghost use Rattle.std.specs.Option.{ForSome};
ghost use Rattle.lattice.specs.Points.{of_dir};
ghost use Rattle.job_file.specs.Names.{direction_of};
ghost use Rattle.job_file.specs.ViewKeys.{is_named};
ghost use Rattle.job_file.specs.Views.{AreNamedApart};
ghost use Rattle.job_tables.specs.Seen.{entry_seen, table_seen};
ghost use Rattle.sheet_job.specs.SheetFaults.{SaysSheet};
ghost use Rattle.sheet_job.specs.SheetSeen.{sheet_view_seen, IsPlacedIn};
ghost use Rattle.sheet_job.specs.SheetViews.{first_cut_key, plain_view, usual_view, usual_sheet_views, sheet_named_view, sheet_toward_view, sheet_view_of, sheet_views_after, sheet_views_of};

use crate::cut_views::cut_view;
use crate::entries::{axis_at, entry_of, hidden_at, name_at, no_title, toward_at};
use crate::flaw::{SheetStop, ViewFlaw, flawed_view};
use crate::keys::SheetKey;
use crate::shown::SheetShown;
use crate::view::SheetView;
use exact_frac::OutOfMemory;
use job_file::{Principal, direction_of};
use job_tables::{JobTable, TableEntry};
use lattice::Dir;
use std::alloc::Global;

/// The first key that only a cut has, and how many bytes are before it.
fn first_cut_key(entries: &[TableEntry]) -> Option<(SheetKey, usize)>
    ensures { result ≡ first_cut_key (map entry_seen entries.now) }
{
    if let Some(entry) = entry_of(entries, "at") {
        return Some((SheetKey::At, entry.at));
    }
    if let Some(entry) = entry_of(entries, "from") {
        return Some((SheetKey::From, entry.at));
    }
    match entry_of(entries, "title") {
        Some(entry) => Some((SheetKey::CutTitle, entry.at)),
        None => None,
    }
}

/// The whole part from a direction, which is that of its name if it has one.
fn plain_view(
    alloc: Global,
    direction: Dir,
    named: Option<Principal>,
    hidden: Option<bool>,
) -> Result<SheetView, OutOfMemory>
    requires { ForSome named (λ p. of_dir direction ≡ direction_of p) }
    ensures value { IfOk result (λ v. sheet_view_seen v ≡ plain_view (of_dir direction) named hidden) }
    ensures placed { IfOk result (λ v. (text : List ℕ) → IsPlacedIn text v) }
{
    Ok(SheetView {
        shows: SheetShown::Plain(direction),
        named,
        title: no_title(alloc)?,
        hidden,
    })
}

/// The view with this number, from a direction.
fn toward_view(
    alloc: Global,
    number: u32,
    entries: &[TableEntry],
    direction: Dir,
) -> Result<SheetView, SheetStop>
    ensures value { SaysSheet sheet_view_seen result (sheet_toward_view number (map entry_seen entries.now) (of_dir direction)) }
    ensures placed { IfOk result (λ v. (text : List ℕ) → IsPlacedIn text v) }
    ensures unnamed { IfOk result (λ v. v.named ≡ None) }
{
    if let Some((key, at)) = first_cut_key(entries) {
        return Err(flawed_view(ViewFlaw::WithoutCut(key), number, entries, at));
    }
    match plain_view(alloc, direction, None, hidden_at(entries)) {
        Ok(view) => Ok(view),
        Err(error) => Err(SheetStop::Memory(error)),
    }
}

/// A view has this name.
fn is_named(name: Principal, named: Option<Principal>) -> bool
    ensures { result ≡ is_named name named }
{
    match named {
        Some(other) => other == name,
        None => false,
    }
}

/// An earlier view has this name.
fn is_taken(name: Principal, earlier: &[SheetView]) -> bool
    ensures value { result ≡ list_any (λ v. is_named name v.named) (map sheet_view_seen earlier.now) }
    ensures apart { IsFalse result → All (λ w. AreNamedApart w.named (Some name)) earlier.now }
{
    for view in earlier {
        if is_named(name, view.named) {
            return true;
        }
    }
    false
}

/// The view of a name, which no earlier view has.
fn named_view(
    alloc: Global,
    earlier: &[SheetView],
    entries: &[TableEntry],
    name: Principal,
    at: usize,
) -> Result<SheetView, SheetStop>
    requires { length earlier.now < 12 }
    ensures value { SaysSheet sheet_view_seen result (sheet_named_view (map sheet_view_seen earlier.now) (map entry_seen entries.now) (name, at)) }
    ensures placed { IfOk result (λ v. (text : List ℕ) → IsPlacedIn text v) }
    ensures apart { IfOk result (λ v. All (λ w. AreNamedApart w.named v.named) earlier.now) }
{
    let number = earlier.len() as u32;
    if let Some((key, key_at)) = first_cut_key(entries) {
        return Err(flawed_view(ViewFlaw::WithoutCut(key), number, entries, key_at));
    }
    if is_taken(name, earlier) {
        return Err(flawed_view(ViewFlaw::NameTaken, number, entries, at));
    }
    match plain_view(alloc, direction_of(name), Some(name), hidden_at(entries)) {
        Ok(view) => Ok(view),
        Err(error) => Err(SheetStop::Memory(error)),
    }
}

/// The view of a table, after those before it.
fn view_of(
    alloc: Global,
    text: &str,
    earlier: &[SheetView],
    table: &JobTable,
) -> Result<SheetView, SheetStop>
    requires few { length earlier.now < 12 }
    requires short { length text.now < 2 ^ 31 }
    ensures value { SaysSheet sheet_view_seen result (sheet_view_of (map sheet_view_seen earlier.now) (table_seen table.now)) }
    ensures placed { IfOk result (λ v. IsPlacedIn text.now v) }
    ensures apart { IfOk result (λ v. All (λ w. AreNamedApart w.named v.named) earlier.now) }
{
    let entries = &table.entries;
    let number = earlier.len() as u32;
    match (name_at(entries), toward_at(entries), axis_at(entries)) {
        (Some((name, at)), None, None) => named_view(alloc, earlier, entries, name, at),
        (None, Some(direction), None) => toward_view(alloc, number, entries, direction),
        (None, None, Some(axis)) => cut_view(alloc, text, number, table, axis),
        _ => Err(flawed_view(ViewFlaw::Form, number, entries, table.at)),
    }
}

/// The views of tables, one after the other. Each name is compared with those of the views before it.
fn views_in_order(
    alloc: Global,
    text: &str,
    tables: &[JobTable],
) -> Result<Vec<SheetView>, SheetStop>
    requires few { length tables.now ≤ 12 }
    requires short { length text.now < 2 ^ 31 }
    ensures value { SaysSheet (λ views. map sheet_view_seen views.items) result (sheet_views_after [] (map table_seen tables.now)) }
    ensures placed { IfOk result (λ views. All (IsPlacedIn text.now) views.items) }
    ensures count { IfOk result (λ views. length views.items ≡ length tables.now) }
    ensures apart { IfOk result (λ views. AllPairs (λ v w. AreNamedApart v.named w.named) views.items) }
{
    let mut views = Vec::new(alloc);
    for table in tables {
        let view = match view_of(alloc, text, &views, table) {
            Ok(view) => view,
            Err(stop) => return Err(stop),
        };
        match views.push(view) {
            Ok(()) => {}
            Err(_) => return Err(SheetStop::Memory(OutOfMemory)),
        }
    }
    Ok(views)
}

/// The view of a name.
fn usual_view(alloc: Global, name: Principal) -> Result<SheetView, OutOfMemory>
    ensures value { IfOk result (λ v. sheet_view_seen v ≡ usual_view name) }
    ensures named { IfOk result (λ v. v.named ≡ Some name) }
    ensures placed { IfOk result (λ v. (text : List ℕ) → IsPlacedIn text v) }
{
    plain_view(alloc, direction_of(name), Some(name), None)
}

/// From the front, from above and from the left.
fn usual_views(alloc: Global) -> Result<Vec<SheetView>, OutOfMemory>
    ensures value { IfOk result (λ views. map sheet_view_seen views.items ≡ usual_sheet_views) }
    ensures placed { IfOk result (λ views. (text : List ℕ) → All (IsPlacedIn text) views.items) }
    ensures apart { IfOk result (λ views. AllPairs (λ v w. AreNamedApart v.named w.named) views.items) }
{
    let mut views = Vec::with_capacity(alloc, 3)?;
    views.push(usual_view(alloc, Principal::Front)?)?;
    views.push(usual_view(alloc, Principal::Above)?)?;
    views.push(usual_view(alloc, Principal::Left)?)?;
    Ok(views)
}

/// The views of tables, or the usual ones if there is no table.
pub(crate) fn views_of(
    alloc: Global,
    text: &str,
    tables: &[JobTable],
) -> Result<Vec<SheetView>, SheetStop>
    requires few { length tables.now ≤ 12 }
    requires short { length text.now < 2 ^ 31 }
    ensures value { SaysSheet (λ views. map sheet_view_seen views.items) result (sheet_views_of (map table_seen tables.now)) }
    ensures placed { IfOk result (λ views. All (IsPlacedIn text.now) views.items) }
    ensures some { IfOk result (λ views. 1 ≤ length views.items) }
    ensures few { IfOk result (λ views. length views.items ≤ 12) }
    ensures apart { IfOk result (λ views. AllPairs (λ v w. AreNamedApart v.named w.named) views.items) }
{
    if !tables.is_empty() {
        return views_in_order(alloc, text, tables);
    }
    match usual_views(alloc) {
        Ok(views) => Ok(views),
        Err(error) => Err(SheetStop::Memory(error)),
    }
}
