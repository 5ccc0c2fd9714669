// The first value that its key doesn't have.
ghost use Rattle.std.specs.Prelude.{◌≡◌, ◌≤◌, None, length, map, option_map};
ghost use Rattle.job_tables.specs.Seen.{entry_seen, table_seen, tables_seen};
ghost use Rattle.sheet_job.specs.SheetJobs.{wrong_value, first_wrong, wrong_in_views, entries_in, wrong_in};
ghost use Rattle.sheet_job.specs.SheetKeys.{key_named};
ghost use Rattle.sheet_job.specs.inner.WrongValues.{wrong_seen};

use crate::keys::{SheetKey, is_quoted, is_right, key_named};
use job_tables::{JobTable, JobTables, TableEntry, TableKind};

/// A value that its key doesn't have.
#[derive(Clone, Copy)]
pub(crate) struct WrongValue {
    pub key: SheetKey,
    /// It is a text that the key may have without quotes.
    pub quoted: bool,
    /// The number of the view that has the key, counted from 0, if one does.
    pub view: Option<u32>,
    /// How many bytes of the text are before it.
    pub at: usize,
}

/// The entry's value, if its key doesn't have it, in the view with this number or in none.
fn wrong_value(kind: TableKind, view: Option<u32>, entry: &TableEntry) -> Option<WrongValue>
    ensures { option_map wrong_seen result ≡ wrong_value view (key_named kind (entry_seen entry.now).key) (entry_seen entry.now) }
{
    let key = key_named(kind, entry.key.as_str())?;
    if is_right(key, &entry.value) {
        return None;
    }
    Some(WrongValue {
        key,
        quoted: is_quoted(key, &entry.value),
        view,
        at: entry.value_at,
    })
}

/// The first wrong value of such a table, which may be the view with this number.
fn first_wrong(kind: TableKind, view: Option<u32>, entries: &[TableEntry]) -> Option<WrongValue>
    ensures { option_map wrong_seen result ≡ first_wrong kind view (map entry_seen entries.now) }
{
    for entry in entries {
        if let Some(wrong) = wrong_value(kind, view, entry) {
            return Some(wrong);
        }
    }
    None
}

/// The first wrong value of the title block.
fn wrong_in_block(block: &Option<JobTable>) -> Option<WrongValue>
    ensures { option_map wrong_seen result ≡ first_wrong TableKind.Block None (entries_in (option_map table_seen block.now)) }
{
    match block {
        Some(table) => first_wrong(TableKind::Block, None, &table.entries),
        None => None,
    }
}

/// The first wrong value of the views.
fn wrong_in_views(views: &[JobTable]) -> Option<WrongValue>
    requires { length views.now ≤ 12 }
    ensures { option_map wrong_seen result ≡ wrong_in_views 0 (map table_seen views.now) }
{
    for number in 0..views.len() {
        let entries = &views[number].entries;
        if let Some(wrong) = first_wrong(TableKind::View, Some(number as u32), entries) {
            return Some(wrong);
        }
    }
    None
}

/// The first wrong value: of the job, then of the title block, then of the views. Time grows with the values.
pub(crate) fn wrong_in(tables: &JobTables) -> Option<WrongValue>
    ensures { option_map wrong_seen result ≡ wrong_in (tables_seen tables.now) }
{
    if let Some(wrong) = first_wrong(TableKind::Job, None, &tables.job.entries) {
        return Some(wrong);
    }
    if let Some(wrong) = wrong_in_block(&tables.block) {
        return Some(wrong);
    }
    wrong_in_views(&tables.views)
}
