// What words give by a table with a flag, and what is refused.
use crate::{Sentence, WordOption, read};
use std::alloc::{AllocError, Global};
use std::test::Fail;

const OPTIONS: [WordOption<'static>; 4] = [
    WordOption::Value("out"),
    WordOption::Flag("quick"),
    WordOption::Help("help"),
    WordOption::Version("version"),
];

// The words of a line. Two blanks have an empty word between them.
fn words_of(alloc: Global, line: &str) -> Result<Vec<String>, AllocError> {
    let mut words = Vec::new(alloc);
    for word in line.split(' ') {
        words.push(String::from_str(alloc, word)?)?;
    }
    Ok(words)
}

#[test]
fn words_give_texts(rt: HostRuntime) -> Result<(), Fail> {
    let alloc = rt.alloc();
    for (line, part, out, quick) in [
        ("p", Some("p"), None, None),
        ("--quick", None, None, Some("")),
        ("--quick p", Some("p"), None, Some("")),
        ("p --out - --quick", Some("p"), Some("-"), Some("")),
        ("--out= -- --quick", Some("--quick"), Some(""), None),
    ] {
        let words = words_of(alloc, line)?;
        match read(alloc, "part", &OPTIONS, &words) {
            Ok(Sentence::Given(given)) => {
                assert!(rt; given.text("part") == part, "{line}");
                assert!(rt; given.text("out") == out, "{line}");
                assert!(rt; given.text("quick") == quick, "{line}");
            }
            _ => return Err(line.into()),
        }
    }
    Ok(())
}

#[test]
fn other_words_are_refused_unless_they_ask(rt: HostRuntime) -> Result<(), Fail> {
    let alloc = rt.alloc();
    for line in [
        "p q",
        "--quick=",
        "--quick --quick",
        "--out",
        "--out --quick",
        "--out o --out=o",
        "--unknown --help",
        "-q",
        "--help=1",
    ] {
        let words = words_of(alloc, line)?;
        assert!(rt;
            matches!(read(alloc, "part", &OPTIONS, &words), Ok(Sentence::Refused)),
            "{line}"
        );
    }
    let words = words_of(alloc, "p --help --unknown")?;
    assert!(rt; matches!(read(alloc, "part", &OPTIONS, &words), Ok(Sentence::Help)));
    let words = words_of(alloc, "--quick --version p q")?;
    assert!(rt; matches!(read(alloc, "part", &OPTIONS, &words), Ok(Sentence::Version)));
    Ok(())
}
