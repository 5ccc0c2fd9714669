// Takes bytes of a file, which stays open from one fetch to the next.
ghost use Rattle.std.specs.Prelude.{◌≤◌, length, IfOk};

use crate::identity::{Fetched, add_fetched};
use dec_text::Name;
use std::alloc::Global;
use std::fs::OpenFile;
use std::io::{Read, Seek, SeekFrom};
use std::rt::Files;
use std::{fs, io};

/// A file that a fetch left open, and the place of its next byte.
#[derive(Drop)]
pub(crate) struct Reading<F> {
    name: Name,
    at: u64,
    file: F,
}

// The file at that place, which is the one that was left open, or is opened anew and added to those that were fetched.
fn file_at<R: Files>(
    rt: &R,
    left: Option<Reading<R::File>>,
    fetched: &mut Fetched,
    name: &str,
    at: u64,
) -> io::Result<R::File> {
    if let Some(reading) = left {
        if reading.at == at && reading.name.as_str() == name {
            return Ok(reading.file);
        }
    }
    let mut file = fs::open(rt, name)?;
    add_fetched(fetched, &file.metadata()?)?;
    if at > 0 {
        file.seek(SeekFrom::Start(at))?;
    }
    Ok(file)
}

// Reads, and tries again where a signal interrupts it.
fn read_on<F: Read>(file: &mut F, into: &mut [u8]) -> io::Result<usize>
    ensures { IfOk result (λ n. n ≤ length into.old) }
{
    for _ in 0..u64::MAX {
        match file.read(into) {
            Ok(n) => return Ok(n),
            Err(e) if e.kind() == io::ErrorKind::Interrupted => {}
            Err(e) => return Err(e),
        }
    }
    Err(io::Error::from(io::ErrorKind::Interrupted))
}

/// Takes bytes from a place on to the front of `into`. The file is left open for the next fetch, so that a pipe can be fetched too.
/// Where its name finds no memory it is closed, and the next fetch opens it again.
pub(crate) fn read_at<R: Files>(
    alloc: Global,
    rt: &R,
    reading: &mut Option<Reading<R::File>>,
    fetched: &mut Fetched,
    name: &str,
    at: u64,
    into: &mut [u8],
) -> io::Result<usize>
    ensures { IfOk result (λ n. n ≤ length into.old) }
{
    let mut file = file_at(rt, reading.take(), fetched, name, at)?;
    let n = read_on(&mut file, into)?;
    let at = at.saturating_add(n as u64);
    *reading = Name::new(alloc, name)
        .ok()
        .map(|name| Reading { name, at, file });
    Ok(n)
}
