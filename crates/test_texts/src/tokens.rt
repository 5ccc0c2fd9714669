// Texts with comments and without, where their tokens stand, and what is left behind a line.
use lex_lines::{Token, Tokens};
use std::process::Abort;

// The tokens of a text, by from, to and line, and then none.
fn check_tokens(rt: &impl Abort, text: &[u8], comments: bool, want: &[(u32, u32, u32)]) {
    assert!(rt; text.len() <= 100);
    let mut tokens = Tokens::new(text, comments);
    for (from, to, line) in want {
        let token = Token {
            from: *from,
            to: *to,
            line: *line,
        };
        assert_eq!(rt; tokens.next(), Some(token), "{text:?}");
    }
    assert_eq!(rt; tokens.next(), None, "{text:?}");
    assert_eq!(rt; tokens.next(), None, "{text:?}");
}

// A text, whether it may have comments, and its tokens.
type Row = (&'static [u8], bool, &'static [(u32, u32, u32)]);

#[test]
fn tokens_stand_at_their_places(rt: HostRuntime) {
    let rows: [Row; 10] = [
        (b"", true, &[]),
        (b" \t\n\r\n", true, &[]),
        (b"#", true, &[]),
        (b"#", false, &[(0, 1, 1)]),
        (b"a#b c\nd", true, &[(0, 1, 1), (6, 7, 2)]),
        (b"a#b c\nd", false, &[(0, 3, 1), (4, 5, 1), (6, 7, 2)]),
        (b"# a b\n \x0b#\nc", true, &[(10, 11, 3)]),
        (
            b"\ta\x0bb\x0c\r\nc d\n\ne",
            true,
            &[(1, 2, 1), (3, 4, 1), (7, 8, 2), (9, 10, 2), (12, 13, 4)],
        ),
        (b"  a  \n\n#b\n  cd#e\r\n", true, &[(2, 3, 1), (12, 14, 4)]),
        (
            b"  a  \n\n#b\n  cd#e\r\n",
            false,
            &[(2, 3, 1), (7, 9, 3), (12, 16, 4)],
        ),
    ];
    for (text, comments, want) in rows {
        check_tokens(&rt, text, comments, want);
    }
}

// The line of the token behind the first `taken` and the rest of their line, or 0 where none is left, and the text's last line.
fn line_behind(rt: &impl Abort, text: &[u8], taken: u32) -> (u32, u32) {
    assert!(rt; text.len() <= 100);
    let mut tokens = Tokens::new(text, true);
    for _ in 0..taken {
        assert!(rt; tokens.next().is_some());
    }
    tokens.skip_line();
    tokens.skip_line();
    let line = tokens.next().map_or(0, |token| token.line);
    (line, tokens.end_line())
}

#[test]
fn a_line_is_passed_over(rt: HostRuntime) {
    for (taken, line) in [(0, 3), (1, 3), (2, 3), (3, 4), (4, 4), (5, 0)] {
        assert_eq!(rt;
            line_behind(&rt, b"a b # c\n\nd e\nf", taken),
            (line, 4),
            "{taken}"
        );
    }
    assert_eq!(rt; line_behind(&rt, b"", 0), (0, 1));
}
