// The first header or key that is wrong.
ghost use Rattle.std.specs.Prelude.{◌≡◌, ◌≤◌, map, IfOk, OnOk};
ghost use Rattle.job_tables.specs.Faults.{unknown_table, block_fault, view_fault, header_fault, kind_of, view_begun, key_fault, table_fault};
ghost use Rattle.job_tables.specs.Known.{HasKnownKeys};
ghost use Rattle.job_tables.specs.Seen.{entry_seen};
ghost use Rattle.job_tables.specs.inner.Headed.{header_seen, headed_seen};
ghost use Rattle.job_tables.specs.inner.SaysFault.{IsFlaw, SaysFault};

use crate::flaw::{TableFlaw, TableStop};
use crate::headers::{Headed, Header};
use crate::hints::{key_hint, nearest_table};
use crate::keys::is_known;
use crate::table::{JobTable, TableEntry, TableKind};
use dec_text::Name;
use exact_frac::OutOfMemory;
use std::alloc::Global;

/// What is wrong with `[block]`, after another one or not.
fn block_flaw(has_block: bool, entries: &[TableEntry]) -> Option<TableFlaw>
    ensures { IsFlaw result (block_fault has_block (map entry_seen entries.now)) }
{
    if has_block {
        Some(TableFlaw::SecondBlock)
    } else if entries.is_empty() {
        Some(TableFlaw::EmptyBlock)
    } else {
        None
    }
}

/// What is wrong with `[[view]]`, after so many.
fn view_flaw(views: usize) -> Option<TableFlaw>
    ensures { IsFlaw result (view_fault views) }
{
    if views < 12 {
        None
    } else {
        Some(TableFlaw::TooManyViews)
    }
}

/// A table that no job has.
fn unknown_table(alloc: Global, name: &str) -> Result<Option<TableFlaw>, OutOfMemory>
    ensures { IfOk result (λ flaw. IsFlaw flaw (Some (unknown_table name.now))) }
{
    let near = nearest_table(name);
    Ok(Some(TableFlaw::UnknownTable(Name::new(alloc, name)?, near)))
}

/// What is wrong with a header with these entries, after a `[block]` or not, and after so many views.
fn header_flaw(
    alloc: Global,
    has_block: bool,
    views: usize,
    header: &Header,
    entries: &[TableEntry],
) -> Result<Option<TableFlaw>, OutOfMemory>
    ensures { IfOk result (λ flaw. IsFlaw flaw (header_fault has_block views (header_seen header.now) (map entry_seen entries.now))) }
{
    match header {
        Header::Single(key) => match key.as_str() {
            "block" => Ok(block_flaw(has_block, entries)),
            "view" => Ok(Some(TableFlaw::SingleView)),
            name => unknown_table(alloc, name),
        },
        Header::Double(key) => match key.as_str() {
            "view" => Ok(view_flaw(views)),
            "block" => Ok(Some(TableFlaw::DoubleBlock)),
            name => unknown_table(alloc, name),
        },
    }
}

/// Looks for the first key that isn't one of its table, which may be the view with this number.
pub(crate) fn check_keys(
    alloc: Global,
    kind: TableKind,
    view: Option<u32>,
    table: &JobTable,
) -> Result<(), TableStop>
    ensures value { SaysFault result (key_fault kind view (map entry_seen table.now.entries.items)) }
    ensures known { OnOk result (HasKnownKeys kind table.now) }
{
    for entry in &table.entries {
        let key = entry.key.as_str();
        if !is_known(kind, key) {
            let hint = key_hint(kind, key);
            let flaw = TableFlaw::UnknownKey(kind, view, Name::new(alloc, key)?, hint);
            return Err(TableStop::At(flaw, entry.at));
        }
    }
    Ok(())
}

/// Which table a header begins.
fn kind_of(header: &Header) -> TableKind
    ensures { result ≡ kind_of (header_seen header.now) }
{
    match header {
        Header::Single(_) => TableKind::Block,
        Header::Double(_) => TableKind::View,
    }
}

/// The number of the view that a header begins, after so many.
fn view_begun(views: usize, header: &Header) -> Option<u32>
    requires { views ≤ 12 }
    ensures { result ≡ view_begun views (header_seen header.now) }
{
    match header {
        Header::Single(_) => None,
        Header::Double(_) => Some(views as u32),
    }
}

/// Looks for the first fault of a table, after a `[block]` or not, and after so many views.
pub(crate) fn check_table(
    alloc: Global,
    has_block: bool,
    views: usize,
    headed: &Headed,
) -> Result<(), TableStop>
    requires { views ≤ 12 }
    ensures value { SaysFault result (table_fault has_block views (headed_seen headed.now)) }
    ensures known { OnOk result (HasKnownKeys (kind_of (header_seen headed.now.header)) headed.now.table) }
{
    let Headed { header, table } = headed;
    let flaw = header_flaw(alloc, has_block, views, header, &table.entries)?;
    match flaw {
        Some(flaw) => Err(TableStop::At(flaw, table.at)),
        None => check_keys(alloc, kind_of(header), view_begun(views, header), table),
    }
}
