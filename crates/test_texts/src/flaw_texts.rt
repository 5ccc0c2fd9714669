// What is wrong with a job of version 3, as a line says it.
use dec_text::Name;
use flaw_lines::flaw_text;
use job_file::Principal;
use job_tables::{KeyHint, TableFlaw, TableKind};
use job_text::{Flaw, TextPlace};
use sheet_job::{JobFlaw, PlacedFlaw, SheetKey, ViewFlaw};
use std::alloc::Global;

/// The flaw at line 3 and column 8 has this text.
fn has_text(alloc: Global, flaw: JobFlaw, text: &str) -> bool {
    let place = TextPlace { line: 3, column: 8 };
    match flaw_text(alloc, &PlacedFlaw { place, flaw }) {
        Ok(found) => found.as_str() == text,
        Err(_) => false,
    }
}

/// The unknown key with this hint has this text. One of a view is one of the second view.
fn key_has_text(alloc: Global, kind: TableKind, name: &str, hint: KeyHint, text: &str) -> bool {
    let view = match kind {
        TableKind::View => Some(1),
        _ => None,
    };
    match Name::new(alloc, name) {
        Ok(name) => has_text(
            alloc,
            JobFlaw::Table(TableFlaw::UnknownKey(kind, view, name, hint)),
            text,
        ),
        Err(_) => false,
    }
}

/// The unknown table has this text.
fn table_has_text(alloc: Global, name: &str, near: Option<&'static str>, text: &str) -> bool {
    match Name::new(alloc, name) {
        Ok(name) => has_text(
            alloc,
            JobFlaw::Table(TableFlaw::UnknownTable(name, near)),
            text,
        ),
        Err(_) => false,
    }
}

#[test]
fn flaws_of_lines_and_values(rt: HostRuntime) {
    let alloc = rt.alloc();
    let broken =
        "3:8: broken text: close its quote on this line, write \\\\ for \\, and leave control characters out";
    assert!(rt; has_text(alloc, JobFlaw::Line(Flaw::BrokenText), broken));
    let decimals = "3:8: wrong decimals: \"fit\", or 0 to 6; leave the quotes out";
    assert!(rt;
        has_text(
            alloc,
            JobFlaw::Wrong(SheetKey::Decimals, true, None),
            decimals
        )
    );
    let sheet = "3:8: wrong sheet: \"A0\", \"A1\", \"A2\", \"A3\", \"A4\" or \"fit\"";
    assert!(rt; has_text(alloc, JobFlaw::Wrong(SheetKey::Sheet, false, None), sheet));
    let hidden = "3:8: view 12: wrong hidden: true or false";
    assert!(rt;
        has_text(
            alloc,
            JobFlaw::Wrong(SheetKey::HiddenHere, false, Some(11)),
            hidden
        )
    );
    let form = "3:8: view 3: exactly one of name, toward and cut is wanted";
    assert!(rt; has_text(alloc, JobFlaw::View(ViewFlaw::Form, 2, None), form));
    let without = JobFlaw::View(
        ViewFlaw::WithoutCut(SheetKey::At),
        0,
        Some(Principal::Front),
    );
    assert!(rt; has_text(alloc, without, "3:8: view front: at goes with cut only"));
    let range =
        "3:8: view 4294967296: at is too far from 0: at most 10485.76 mm with 2 decimals, a tenth of that with each decimal more";
    assert!(rt; has_text(alloc, JobFlaw::AtRange(4_294_967_295), range));
}

#[test]
fn flaws_of_tables_and_keys(rt: HostRuntime) {
    let alloc = rt.alloc();
    let view = "3:8: unknown table veiw: view is meant?";
    assert!(rt; table_has_text(alloc, "veiw", Some("view"), view));
    let none = "3:8: unknown table a?: [block] and [[view]] are known";
    assert!(rt; table_has_text(alloc, "a\u{7f}", None, none));
    let title = "3:8: unknown key titel: title is meant?";
    assert!(rt;
        key_has_text(
            alloc,
            TableKind::Job,
            "titel",
            KeyHint::Near("title"),
            title
        )
    );
    let scale = "3:8: view 2: unknown key scale: it belongs before the first [block] or [[view]]";
    assert!(rt;
        key_has_text(
            alloc,
            TableKind::View,
            "scale",
            KeyHint::In(TableKind::Job),
            scale
        )
    );
    let block = "3:8: unknown key block: [block] begins the title block";
    assert!(rt; key_has_text(alloc, TableKind::Job, "block", KeyHint::Header, block));
    let keys =
        "3:8: view 2: unknown key colour: a view has name, toward, cut, at, from, title and hidden";
    assert!(rt; key_has_text(alloc, TableKind::View, "colour", KeyHint::Unlike, keys));
}
