// What the marks of a case tell.
use crate::case::{Case, Program};
use dec_text::Name;
use std::alloc::{AllocError, Global};
use std::rt::Files;
use std::{fs, io};

// Adds bytes to the file of a name.
fn add_bytes(
    alloc: Global,
    files: &mut Vec<(Name, Vec<u8>)>,
    name: &str,
    bytes: &[u8],
) -> io::Result<()> {
    for file in files.iter_mut() {
        if file.0.as_str() == name {
            file.1.extend_from_slice(bytes)?;
            return Ok(());
        }
    }
    files.push((name_of(alloc, name)?, bytes.to_vec(alloc)?))?;
    Ok(())
}

fn name_of(alloc: Global, name: &str) -> Result<Name, AllocError> {
    match Name::new(alloc, name) {
        Ok(name) => Ok(name),
        Err(_) => Err(AllocError),
    }
}

// The bytes of a text with its last newline, which was cut off before the next mark. There is none behind no text.
fn lines_of(alloc: Global, text: Option<&str>) -> Result<Vec<u8>, AllocError> {
    let mut bytes = Vec::new(alloc);
    if let Some(text) = text {
        bytes.extend_from_slice(text.as_bytes())?;
        bytes.push(b'\n')?;
    }
    Ok(bytes)
}

// The words of a line. Two blanks have an empty word between them.
fn words_of(alloc: Global, text: &str) -> Result<Vec<String>, AllocError> {
    let mut words = Vec::new(alloc);
    if text.is_empty() {
        return Ok(words);
    }
    for word in text.split(' ') {
        words.push(String::from_str(alloc, word)?)?;
    }
    Ok(words)
}

// The numbers of a line, unless a word of it is none.
fn numbers_of(alloc: Global, text: &str) -> Result<Option<Vec<u64>>, AllocError> {
    let mut numbers = Vec::new(alloc);
    for word in text.split_whitespace() {
        let Ok(number) = word.parse::<u64>() else {
            return Ok(None);
        };
        numbers.push(number)?;
    }
    Ok(Some(numbers))
}

// The bytes that a byte and its count tell, unless they are no numbers.
fn repeated(alloc: Global, text: &str) -> Result<Option<Vec<u8>>, AllocError> {
    let Some((byte, count)) = text.split_once(' ') else {
        return Ok(None);
    };
    match (byte.parse::<u8>(), count.parse::<u32>()) {
        (Ok(byte), Ok(count)) => Ok(Some(vec![in alloc; byte; count as usize]?)),
        _ => Ok(None),
    }
}

// The bytes that a mark adds to a file of the desk, unless it isn't such a mark.
fn bytes_of<R: Files + AllocGlobal>(
    rt: &R,
    mark: &str,
    rest: &str,
    text: Option<&str>,
) -> io::Result<Option<Vec<u8>>> {
    let alloc = rt.alloc();
    match mark {
        "file" => Ok(Some(lines_of(alloc, text)?)),
        "open" => Ok(Some(text.unwrap_or("").as_bytes().to_vec(alloc)?)),
        "take" => Ok(Some(fs::read(rt, rest)?)),
        "bytes" => Ok(repeated(alloc, rest)?),
        _ => Ok(None),
    }
}

// The program of a name, if there is one.
fn program_of(name: &str) -> Option<Program> {
    match name {
        "draw" => Some(Program::Draw),
        "sheet" => Some(Program::Sheet),
        "pieces" => Some(Program::Pieces),
        "mend" => Some(Program::Mend),
        _ => None,
    }
}

// The two numbers of a line.
fn pair_of(rest: &str) -> Option<(u64, u64)> {
    let (first, second) = rest.split_once(' ')?;
    Some((first.parse::<u64>().ok()?, second.parse::<u64>().ok()?))
}

// Adds a file that may be kept, with its room. Answers whether both are told.
fn add_slot(alloc: Global, case: &mut Case, rest: &str) -> Result<bool, AllocError> {
    let Some((name, room)) = rest.split_once(' ') else {
        return Ok(false);
    };
    let Ok(room) = room.parse::<u64>() else {
        return Ok(false);
    };
    case.slots.push((name_of(alloc, name)?, room))?;
    Ok(true)
}

// Adds what a mark tells of the desk. Answers whether it is told rightly, if it is such a mark.
fn add_to_desk(
    alloc: Global,
    case: &mut Case,
    mark: &str,
    rest: &str,
) -> Result<Option<bool>, AllocError> {
    match mark {
        "fail" => {
            let Some(numbers) = numbers_of(alloc, rest)? else {
                return Ok(Some(false));
            };
            case.fail = numbers;
            Ok(Some(true))
        }
        "left" => {
            case.left = rest.parse::<u64>().ok();
            Ok(Some(case.left.is_some()))
        }
        "rooms" => {
            case.rooms = pair_of(rest);
            Ok(Some(case.rooms.is_some()))
        }
        "slot" => Ok(Some(add_slot(alloc, case, rest)?)),
        _ => Ok(None),
    }
}

// Adds what a mark tells of the run. Answers whether it is such a mark.
fn add_to_run<R: Files + AllocGlobal>(
    rt: &R,
    case: &mut Case,
    mark: &str,
    rest: &str,
    text: Option<&str>,
) -> io::Result<bool> {
    let alloc = rt.alloc();
    if mark == "program" {
        let Some(program) = program_of(rest) else {
            return Ok(false);
        };
        case.program = program;
        return Ok(true);
    }
    if mark == "words" {
        case.words = words_of(alloc, rest)?;
        return Ok(true);
    }
    if let Some(told) = add_to_desk(alloc, case, mark, rest)? {
        return Ok(told);
    }
    let (name, rest) = rest.split_once(' ').unwrap_or((rest, ""));
    match bytes_of(rt, mark, rest, text)? {
        Some(bytes) => {
            add_bytes(alloc, &mut case.files, name, &bytes)?;
            Ok(true)
        }
        None => Ok(false),
    }
}

// Adds a file that the desk has afterwards, with the bytes of a real one. Answers whether both are named.
fn add_held<R: Files + AllocGlobal>(rt: &R, case: &mut Case, rest: &str) -> io::Result<bool> {
    let Some((name, file)) = rest.split_once(' ') else {
        return Ok(false);
    };
    let bytes = fs::read(rt, file)?;
    case.kept.push((name_of(rt.alloc(), name)?, bytes))?;
    Ok(true)
}

// Adds what a mark tells of the files afterwards. Answers whether it is such a mark.
fn add_to_files<R: Files + AllocGlobal>(
    rt: &R,
    case: &mut Case,
    mark: &str,
    rest: &str,
    text: Option<&str>,
) -> io::Result<bool> {
    let alloc = rt.alloc();
    match mark {
        "holds" => return add_held(rt, case, rest),
        "kept" => case
            .kept
            .push((name_of(alloc, rest)?, lines_of(alloc, text)?))?,
        "made" => case.made.push(name_of(alloc, rest)?)?,
        "gone" => case.gone.push(name_of(alloc, rest)?)?,
        _ => return Ok(false),
    }
    Ok(true)
}

// Adds what a mark tells of the end of the run. Answers whether it is such a mark.
fn add_to_end<R: Files + AllocGlobal>(
    rt: &R,
    case: &mut Case,
    mark: &str,
    rest: &str,
    text: Option<&str>,
) -> io::Result<bool> {
    let alloc = rt.alloc();
    match mark {
        "said" => case.said = lines_of(alloc, text)?,
        "warned" => case.warned = lines_of(alloc, text)?,
        "differs" => case.differs = format!(in alloc; " {rest}")?,
        "beginnings" => {
            case.beginnings = Some(name_of(alloc, rest)?);
            case.answers = String::from_str(alloc, text.unwrap_or(""))?;
        }
        "status" => match rest.parse::<u8>() {
            Ok(number) => case.status = number,
            Err(_) => return Ok(false),
        },
        _ => return add_to_files(rt, case, mark, rest, text),
    }
    Ok(true)
}

// Adds what a mark and its text tell. Answers whether there is such a mark, and what it names can be had.
pub(crate) fn add<R: Files + AllocGlobal>(
    rt: &R,
    case: &mut Case,
    line: &str,
    text: Option<&str>,
) -> io::Result<bool> {
    let (mark, rest) = line.split_once(' ').unwrap_or((line, ""));
    if add_to_run(rt, case, mark, rest, text)? {
        return Ok(true);
    }
    add_to_end(rt, case, mark, rest, text)
}
