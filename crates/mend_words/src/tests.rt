// What words give where an option is there, and where it isn't; what is refused.
use crate::{Asked, MendRequest, Out, read_words};
use draw_words::WordsError;
use std::alloc::{AllocError, Global};
use std::test::Fail;

// The words of a line. Two blanks have an empty word between them.
fn words_of(alloc: Global, line: &str) -> Result<Vec<String>, AllocError> {
    let mut words = Vec::new(alloc);
    for word in line.split(' ') {
        words.push(String::from_str(alloc, word)?)?;
    }
    Ok(words)
}

// The request is for this part and name, and has these numbers.
fn is_request(request: &MendRequest, part: &str, out: &str, decimals: u8, limit: u32) -> bool {
    let goes = match &request.out {
        Out::Said => out == "-",
        Out::File(name) => name.as_str() == out,
    };
    request.part.as_str() == part && goes && request.decimals == decimals && request.limit == limit
}

#[test]
fn words_give_a_request(rt: HostRuntime) -> Result<(), Fail> {
    let alloc = rt.alloc();
    for (line, part, out, decimals, limit) in [
        ("p", "p", "mended.off", 3, 4),
        ("--out - p", "p", "-", 3, 4),
        ("p --limit=100 --decimals 0", "p", "mended.off", 0, 100),
        ("--decimals=6 --limit 007 --out=o -- -p", "-p", "o", 6, 7),
    ] {
        match read_words(alloc, &words_of(alloc, line)?) {
            Ok(Asked::Mend(request)) => {
                assert!(rt; is_request(&request, part, out, decimals, limit), "{line}");
            }
            _ => return Err(line.into()),
        }
    }
    let words = words_of(alloc, "--limit 200 --help p p")?;
    assert!(rt; matches!(read_words(alloc, &words), Ok(Asked::Help)));
    Ok(())
}

#[test]
fn other_words_are_refused(rt: HostRuntime) -> Result<(), Fail> {
    let alloc = rt.alloc();
    for line in [
        "",
        "--out o",
        "p q",
        "p --out",
        "p --out=",
        "p --out o --out=o",
        "p --decimals 7",
        "p --decimals 03",
        "p --decimals=",
        "p --decimals=-1",
        "p --limit 101",
        "p --limit 0100",
        "p --limit 4x",
        "p --unknown",
    ] {
        let words = words_of(alloc, line)?;
        assert!(rt;
            matches!(read_words(alloc, &words), Err(WordsError::Usage)),
            "{line}"
        );
    }
    Ok(())
}
