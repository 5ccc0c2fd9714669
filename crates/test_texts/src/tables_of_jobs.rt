// Lines of jobs in their tables, wrong keys and headers with their hints, and the line at which TOML refuses a text.
use job_tables::{
    JobTable, JobTables, KeyHint, TableEntry, TableFlaw, TableKind, TableStop, entry_at, is_toml,
    job_tables, known_keys, refused_line,
};
use job_text::{TextItem, Written, text_lines};
use std::alloc::Global;

const JOB: &str =
    "version = 3\n[block]\nnumber = 'A'\n[[view]]\nname = 'front'\n[[view]]\ncut = 'x'\nat = 1\n";

/// The tables of a text, or what is wrong with them.
fn tables_of(alloc: Global, text: &str) -> Option<Result<JobTables, TableStop>> {
    match text_lines(alloc, text) {
        Ok(lines) => Some(job_tables(alloc, lines)),
        Err(_) => None,
    }
}

fn has_text(entry: Option<&TableEntry>, at: usize, value_at: usize, text: &str) -> bool {
    match entry {
        Some(
            TableEntry {
                at: found,
                key: _,
                value_at: value_found,
                value: Written::One(TextItem::Text(content)),
            },
        ) => *found == at && *value_found == value_at && content.as_str() == text,
        _ => false,
    }
}

fn is_table(table: &JobTable, at: usize, entries: usize) -> bool {
    table.at == at && table.entries.len() == entries
}

fn is_block(block: &Option<JobTable>) -> bool {
    match block {
        Some(table) => {
            is_table(table, 12, 1) && has_text(entry_at(&table.entries, "number"), 20, 29, "A")
        }
        None => false,
    }
}

#[test]
fn tables_of_a_job(rt: HostRuntime) {
    match tables_of(rt.alloc(), JOB) {
        Some(Ok(tables)) => {
            let views = &tables.views;
            assert!(rt; is_table(&tables.job, 0, 1));
            assert!(rt; entry_at(&tables.job.entries, "version").is_some());
            assert!(rt; is_block(&tables.block));
            assert!(rt;
                views.len() == 2 && is_table(&views[0], 33, 1) && is_table(&views[1], 57, 2)
            );
            assert!(rt; has_text(entry_at(&views[0].entries, "name"), 42, 49, "front"));
            assert!(rt; has_text(entry_at(&views[1].entries, "cut"), 66, 72, "x"));
            assert!(rt; entry_at(&views[1].entries, "from").is_none());
        }
        _ => panic!(rt; "no tables"),
    }
}

/// What is wrong, with the number of the view whose key it is, if it is one's; and a hint, if there may be one.
fn told(flaw: &TableFlaw) -> (&'static str, Option<KeyHint>) {
    match flaw {
        TableFlaw::UnknownTable(_, Some(near)) => ("table", Some(KeyHint::Near(*near))),
        TableFlaw::UnknownTable(_, None) => ("table", Some(KeyHint::Unlike)),
        TableFlaw::SingleView => ("single", None),
        TableFlaw::DoubleBlock => ("double", None),
        TableFlaw::SecondBlock => ("second", None),
        TableFlaw::TooManyViews => ("many", None),
        TableFlaw::EmptyBlock => ("empty", None),
        TableFlaw::UnknownKey(_, None, _, hint) => ("key", Some(*hint)),
        TableFlaw::UnknownKey(_, Some(0), _, hint) => ("key 1", Some(*hint)),
        TableFlaw::UnknownKey(_, Some(_), _, hint) => ("key 2", Some(*hint)),
    }
}

// A text, the place of its first fault, what it is, and its hint.
const FAULTS: [(&str, usize, &str, Option<KeyHint>); 18] = [
    (
        "version = 3\nnumber = 1",
        12,
        "key",
        Some(KeyHint::In(TableKind::Block)),
    ),
    (
        "[block]\ntitle = 1",
        8,
        "key",
        Some(KeyHint::In(TableKind::Job)),
    ),
    ("outputs = []", 0, "key", Some(KeyHint::Older)),
    ("block = 1", 0, "key", Some(KeyHint::Header)),
    ("titel = 'a'", 0, "key", Some(KeyHint::Near("title"))),
    ("quux = 1", 0, "key", Some(KeyHint::Unlike)),
    (
        "[[view]]\nform = 'low'",
        9,
        "key 1",
        Some(KeyHint::Near("from")),
    ),
    (
        "[[view]]\n[block]\ndate = 1\n[[view]]\na = 1",
        35,
        "key 2",
        Some(KeyHint::Near("at")),
    ),
    ("[[view]]\nx = 1\n[viw]", 9, "key 1", Some(KeyHint::Unlike)),
    (
        "[block]\nnumber = 1\ndat = 1",
        19,
        "key",
        Some(KeyHint::Near("date")),
    ),
    ("[viw]\nx = 1", 0, "table", Some(KeyHint::Near("view"))),
    ("[[blocks]]", 0, "table", Some(KeyHint::Near("block"))),
    ("title = 1\n[parts]", 10, "table", Some(KeyHint::Unlike)),
    ("[view]", 0, "single", None),
    ("[[block]]", 0, "double", None),
    ("[block]\nnote = 1\n[block]\nnote = 1", 17, "second", None),
    ("\n[block]\n[[view]]\nx = 1", 1, "empty", None),
    (
        "[[view]]\n[[view]]\n[[view]]\n[[view]]\n[[view]]\n[[view]]\n[[view]]\n[[view]]\n[[view]]\n[[view]]\n[[view]]\n[[view]]\n[[view]]\nx = 1",
        108,
        "many",
        None,
    ),
];

#[test]
fn first_faults(rt: HostRuntime) {
    for (text, at, word, hint) in &FAULTS {
        match tables_of(rt.alloc(), *text) {
            Some(Err(TableStop::At(flaw, place))) => {
                let (found, near) = told(&flaw);
                assert!(rt; found == *word && near == *hint && place == *at, "{text}");
            }
            _ => panic!(rt; "no fault: {text}"),
        }
    }
    assert_eq!(rt; known_keys(TableKind::View).len(), 7);
}

fn refused_at(alloc: Global, text: &str) -> Option<usize> {
    let lines = match text_lines(alloc, text) {
        Ok(lines) => lines,
        Err(_) => return None,
    };
    match is_toml(alloc, text.as_bytes()) {
        Ok(false) => refused_line(alloc, text, &lines).ok(),
        _ => None,
    }
}

#[test]
fn lines_that_toml_refuses(rt: HostRuntime) {
    let alloc = rt.alloc();
    assert_eq!(rt;
        refused_at(alloc, "a = 1\nb = 1\n\na = 2\nc = 3\nd = 4"),
        Some(2)
    );
    assert_eq!(rt;
        refused_at(alloc, "# one\n[block]\nx = 1\n[block]\nx = 1"),
        Some(2)
    );
    assert_eq!(rt; refused_at(alloc, "view = []\n[[view]]"), Some(1));
    assert_eq!(rt; refused_at(alloc, "a = 1\nb = 2"), None);
}
