// Lines of jobs, flaws and their places, and words that differ by few letters.
use job_text::{
    Flaw, Meaning, Stop, TextItem, TextLine, TextPlace, Written, are_near, flaw_place, text_lines,
    text_place,
};

const JOB: &str =
    "version = 3 # the third\r\n[ block ]\n\n[[view]]\n  at=-22.50\nx = [ 'a', \"\\u00e9\\t\", 3, true, ]";

fn is_text(item: &TextItem, text: &str) -> bool {
    matches!(item, TextItem::Text(found) if found.as_str() == text)
}

fn is_number(item: &TextItem, word: &[u8]) -> bool {
    matches!(item, TextItem::Number(found) if found.as_slice() == word)
}

fn is_number_at(line: &TextLine, at: usize, key: &str, word: &[u8], value_at: usize) -> bool {
    match &line.meaning {
        Meaning::Entry(found, Written::One(item), place) => {
            line.at == at && found.as_str() == key && is_number(item, word) && *place == value_at
        }
        _ => false,
    }
}

fn is_header(line: &TextLine, at: usize, key: &str) -> bool {
    matches!(&line.meaning, Meaning::Header(found) if line.at == at && found.as_str() == key)
}

fn is_list_header(line: &TextLine, at: usize, key: &str) -> bool {
    matches!(&line.meaning, Meaning::ListHeader(found) if line.at == at && found.as_str() == key)
}

fn is_list(line: &TextLine) -> bool {
    match &line.meaning {
        Meaning::Entry(key, Written::Several(items), 61) => {
            key.as_str() == "x"
                && items.len() == 4
                && is_text(&items[0], "a")
                && is_text(&items[1], "\u{e9}\t")
                && is_number(&items[2], b"3")
                && matches!(items[3], TextItem::Flag(true))
        }
        _ => false,
    }
}

#[test]
fn lines_of_a_job(rt: HostRuntime) {
    match text_lines(rt.alloc(), JOB) {
        Ok(lines) => {
            assert_eq!(rt; lines.len(), 5);
            assert!(rt; is_number_at(&lines[0], 0, "version", b"3", 10));
            assert!(rt; is_header(&lines[1], 25, "block"));
            assert!(rt; is_list_header(&lines[2], 36, "view"));
            assert!(rt; is_number_at(&lines[3], 47, "at", b"-22.50", 50));
            assert!(rt; is_list(&lines[4]));
        }
        Err(_) => panic!(rt; "no lines"),
    }
}

// A text, what is wrong with it, and how many bytes are left there.
const FLAWS: [(&str, Flaw, usize); 30] = [
    ("a = 1\n= 2", Flaw::NoKey, 3),
    ("'a' = 1", Flaw::QuotedKey, 7),
    ("a.b = 1", Flaw::DottedKey, 7),
    ("a. = 1", Flaw::DottedKey, 6),
    ("[a.b]", Flaw::DottedKey, 4),
    ("a 1", Flaw::NoEquals, 1),
    ("[[view]\n", Flaw::NoBracket, 1),
    ("[view", Flaw::NoBracket, 0),
    ("a = ", Flaw::NoValue, 0),
    ("a = [1,\n2]", Flaw::NoValue, 3),
    ("a = front", Flaw::BadWord, 5),
    ("at = 5mm", Flaw::BadWord, 3),
    ("a = .5", Flaw::BadWord, 2),
    ("a = [1 2]", Flaw::BadWord, 4),
    ("a = 2026-02-30", Flaw::BadWord, 10),
    ("a = 22,5", Flaw::More, 2),
    ("a = 'b\n", Flaw::BrokenText, 3),
    ("a = \"\\q\"", Flaw::BrokenText, 4),
    ("a = '''b'''", Flaw::LongText, 7),
    ("a = { b = 1 }", Flaw::InlineTable, 9),
    ("a = [{ b = 1 }]", Flaw::InlineTable, 10),
    ("a = [[1]]", Flaw::InnerList, 4),
    ("a = [1 'b']", Flaw::BrokenList, 4),
    ("a = 2026-11-29", Flaw::BareDate, 10),
    ("a = 1e3", Flaw::NoNumber, 3),
    ("a = 0x16", Flaw::NoNumber, 4),
    ("a = 'b' c", Flaw::More, 1),
    ("\u{feff}a = 1", Flaw::Unprintable, 8),
    ("a = 1\rb = 2", Flaw::Unprintable, 6),
    ("a = 1 # b\u{1}c", Flaw::Unprintable, 2),
];

#[test]
fn flaws_at_their_places(rt: HostRuntime) {
    for (text, flaw, left) in &FLAWS {
        match text_lines(rt.alloc(), *text) {
            Ok(_) => panic!(rt; "{text} has lines"),
            Err(stop) => assert_eq!(rt; stop, Stop::At(*flaw, *left), "{text}"),
        }
    }
}

#[test]
fn places_as_editors_count_them(rt: HostRuntime) {
    let rows: [(usize, u32, u32); 6] = [
        (0, 1, 1),
        (3, 1, 3),
        (4, 2, 1),
        (5, 3, 1),
        (6, 3, 2),
        (7, 3, 3),
    ];
    for (at, line, column) in &rows {
        let place = TextPlace {
            line: *line,
            column: *column,
        };
        assert_eq!(rt; text_place("\u{e9}a\n\nbc", *at), place, "{at}");
        assert_eq!(rt; flaw_place("\u{e9}a\n\nbc", 7 - *at), place, "{at}");
    }
}

#[test]
fn words_that_differ_by_few_letters(rt: HostRuntime) {
    assert!(rt; are_near(b"titel", b"title", 2));
    assert!(rt; !are_near(b"titel", b"title", 1));
    assert!(rt; are_near(b"", b"at", 2));
    assert!(rt; are_near(b"form", b"from", 2));
    assert!(rt; are_near(b"scales", b"scale", 1));
    assert!(rt; !are_near(b"unit", b"title", 2));
    assert!(rt; are_near(b"layout", b"layout", 0));
}
