// Lines at their headers.
ghost use Rattle.std.specs.Prelude.{◌≡◌, map, reverse, IfOk};
ghost use Rattle.job_text.specs.Seen.{line_seen};
ghost use Rattle.job_tables.specs.Seen.{entry_seen};
ghost use Rattle.job_tables.specs.Tables.{by_header};
ghost use Rattle.job_tables.specs.inner.Headed.{header_seen, headed_seen, lines_seen};

use crate::table::{JobTable, TableEntry};
use exact_frac::OutOfMemory;
use job_text::{Meaning, TextLine};
use std::alloc::Global;

/// What a header has in its brackets.
#[derive(Debug, Drop)]
pub enum Header {
    Single(String),
    Double(String),
}

/// A table with its header.
#[derive(Debug, Drop)]
pub struct Headed {
    pub header: Header,
    pub table: JobTable,
}

/// Lines at their headers.
#[derive(Debug, Drop)]
pub struct LinesByHeader {
    /// Those before the first header.
    pub first: Vec<TableEntry>,
    pub tables: Vec<Headed>,
}

/// A table, whose entries are given from the last one back.
fn with_header(at: usize, header: Header, mut backwards: Vec<TableEntry>) -> Headed
    ensures { headed_seen result ≡ record { header = header_seen header; table = record { at = at; entries = reverse (map entry_seen backwards.items) } } }
{
    backwards.reverse();
    Headed {
        header,
        table: JobTable {
            at,
            entries: backwards,
        },
    }
}

/// The lines at their headers. It goes from the last line back, so that each header finds its entries.
pub(crate) fn by_header(
    alloc: Global,
    mut lines: Vec<TextLine>,
) -> Result<LinesByHeader, OutOfMemory>
    ensures { IfOk result (λ s. lines_seen s ≡ by_header (map line_seen lines.items)) }
{
    let mut first = Vec::new(alloc);
    let mut tables = Vec::new(alloc);
    while let Some(TextLine { at, meaning }) = lines.pop() {
        match meaning {
            Meaning::Entry(key, value, value_at) => first.push(TableEntry {
                at,
                key,
                value_at,
                value,
            })?,
            Meaning::Header(key) => {
                tables.push(with_header(at, Header::Single(key), first))?;
                first = Vec::new(alloc);
            }
            Meaning::ListHeader(key) => {
                tables.push(with_header(at, Header::Double(key), first))?;
                first = Vec::new(alloc);
            }
        }
    }
    first.reverse();
    tables.reverse();
    Ok(LinesByHeader { first, tables })
}
