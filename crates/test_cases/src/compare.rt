// What comes of the run of a case, beside what the case tells.
ghost use Rattle.std.specs.Prelude.{◌≤◌, length};

use crate::case::{Case, Program};
use crate::judge;
use dec_text::Name;
use desk::{Desk, MemoryDesk, RoomDesk};
use desk_reasons::Reasons;
use draw_core::draw;
use mend_core::mend;
use plot_rack::{DxfPlotter, HpglPlotter, ListPlotter, Plotter};
use sheet_core::sheet;
use std::alloc::{AllocError, Global};
use std::io;

// How many bytes of a file the desk has: all, or at most so many of the file that is cut.
fn end_of(name: &str, bytes: &[u8], cut: Option<(&str, usize)>) -> usize
    ensures { result ≤ length bytes.now }
{
    match cut {
        Some((of, most)) if of == name => bytes.len().min(most),
        _ => bytes.len(),
    }
}

// A desk that shows what it holds.
pub(crate) trait Shown: Reasons {
    fn file_shown(&self, name: &str) -> Option<&[u8]>;

    // Its files; of a desk with rooms none, for it has no others than those that the case gives and the slots.
    fn files_shown(&self) -> &[(Name, Vec<u8>)];

    fn said_shown(&self) -> &[u8];

    fn warned_shown(&self) -> &[u8];
}

impl Shown for MemoryDesk {
    fn file_shown(&self, name: &str) -> Option<&[u8]> {
        self.file(name)
    }

    fn files_shown(&self) -> &[(Name, Vec<u8>)] {
        self.files()
    }

    fn said_shown(&self) -> &[u8] {
        self.said_bytes()
    }

    fn warned_shown(&self) -> &[u8] {
        self.warned_bytes()
    }
}

impl Shown for RoomDesk {
    fn file_shown(&self, name: &str) -> Option<&[u8]> {
        self.file(name)
    }

    fn files_shown(&self) -> &[(Name, Vec<u8>)] {
        &[]
    }

    fn said_shown(&self) -> &[u8] {
        self.said_bytes()
    }

    fn warned_shown(&self) -> &[u8] {
        self.warned_bytes()
    }
}

fn copy_of(alloc: Global, name: &Name) -> io::Result<Name> {
    match Name::new(alloc, name.as_str()) {
        Ok(name) => Ok(name),
        Err(_) => Err(io::Error::from(io::ErrorKind::OutOfMemory)),
    }
}

// The files of a case, of which one may be cut.
fn files_of(
    alloc: Global,
    case: &Case,
    cut: Option<(&str, usize)>,
) -> io::Result<Vec<(Name, Vec<u8>)>> {
    let mut copies = Vec::new(alloc);
    for (name, bytes) in &case.files {
        let end = end_of(name.as_str(), bytes, cut);
        copies.push((copy_of(alloc, name)?, bytes[..end].to_vec(alloc)?))?;
    }
    Ok(copies)
}

// The desk of a case, of which one file may be cut.
fn desk_of(alloc: Global, case: &Case, cut: Option<(&str, usize)>) -> io::Result<MemoryDesk> {
    let files = files_of(alloc, case, cut)?;
    let fail = case.fail.clone()?;
    Ok(match case.left {
        Some(left) => MemoryDesk::torn(alloc, files, fail, left),
        None => MemoryDesk::new(alloc, files, fail),
    })
}

// The desk of a case with rooms.
fn room_desk_of(alloc: Global, case: &Case, said: u64, warned: u64) -> io::Result<RoomDesk> {
    let mut slots = Vec::new(alloc);
    for (name, room) in &case.slots {
        slots.push((copy_of(alloc, name)?, *room))?;
    }
    match RoomDesk::new(alloc, files_of(alloc, case, None)?, slots, said, warned) {
        Ok(desk) => Ok(desk),
        Err(_) => Err(io::Error::from(io::ErrorKind::OutOfMemory)),
    }
}

// Runs `draw` with the plotters that its program hands in, and answers the status.
fn run_draw<D: Desk>(alloc: Global, words: &[String], desk: &mut D) -> io::Result<u8> {
    let mut extras: Vec<Box<dyn Plotter>> = Vec::new(alloc);
    extras.push(Box::new(alloc, ListPlotter::new(alloc))?)?;
    extras.push(Box::new(alloc, HpglPlotter::new(alloc))?)?;
    extras.push(Box::new(alloc, DxfPlotter::new(alloc))?)?;
    Ok(draw(alloc, words, desk, extras).status)
}

// Runs the case's program by its words over the desk, and answers the status.
fn run<D: Reasons>(alloc: Global, case: &Case, desk: &mut D) -> io::Result<u8> {
    match case.program {
        Program::Draw => run_draw(alloc, &case.words, desk),
        Program::Sheet => Ok(sheet(alloc, &case.words, desk).status),
        Program::Pieces => judge::judge(alloc, &case.words, desk),
        Program::Mend => Ok(mend(alloc, &case.words, desk).status),
    }
}

// Adds a word to what differs.
fn add(told: &mut String, word: &str) -> Result<(), AllocError> {
    told.push(' ')?;
    told.push_str(word)
}

// Adds each file that isn't as the case tells.
fn add_kept<D: Shown>(told: &mut String, case: &Case, desk: &D) -> io::Result<()> {
    for (name, bytes) in &case.kept {
        if desk.file_shown(name.as_str()) != Some(bytes.as_slice()) {
            add(told, name.as_str())?;
        }
    }
    Ok(())
}

// Adds each of these files of which the desk has none, or has one.
fn add_found<D: Shown>(
    told: &mut String,
    names: &[Name],
    desk: &D,
    wanted: bool,
) -> io::Result<()> {
    for name in names {
        if desk.file_shown(name.as_str()).is_some() != wanted {
            add(told, name.as_str())?;
        }
    }
    Ok(())
}

// The file is as it was given, or the case tells what becomes of it.
fn is_told<D: Shown>(case: &Case, desk: &D, name: &str) -> bool {
    if case.names(name) {
        return true;
    }
    match case.given(name) {
        Some(bytes) => desk.file_shown(name) == Some(bytes),
        None => false,
    }
}

// Adds each file of the desk that is new or changed, and of which the case tells nothing.
fn add_untold<D: Shown>(told: &mut String, case: &Case, desk: &D) -> io::Result<()> {
    for (name, _) in desk.files_shown() {
        if !is_told(case, desk, name.as_str()) {
            add(told, name.as_str())?;
        }
    }
    Ok(())
}

// Adds each slot that was kept, and of which the case tells nothing.
fn add_untold_slots<D: Shown>(told: &mut String, case: &Case, desk: &D) -> io::Result<()> {
    for (name, _) in &case.slots {
        if desk.file_shown(name.as_str()).is_some() && !case.names(name.as_str()) {
            add(told, name.as_str())?;
        }
    }
    Ok(())
}

// What differs, each word behind a blank.
fn differences<D: Shown + Drop>(alloc: Global, case: &Case, mut desk: D) -> io::Result<String> {
    let found = run(alloc, case, &mut desk)?;
    let mut told = String::new(alloc);
    if found != case.status {
        add(&mut told, "status")?;
    }
    if desk.said_shown() != case.said.as_slice() {
        add(&mut told, "said")?;
    }
    if desk.warned_shown() != case.warned.as_slice() {
        add(&mut told, "warned")?;
    }
    add_kept(&mut told, case, &desk)?;
    add_found(&mut told, &case.made, &desk, true)?;
    add_found(&mut told, &case.gone, &desk, false)?;
    add_untold(&mut told, case, &desk)?;
    add_untold_slots(&mut told, case, &desk)?;
    Ok(told)
}

fn length_of(case: &Case, name: &str) -> usize {
    for file in &case.files {
        if file.0.as_str() == name {
            return file.1.len();
        }
    }
    0
}

// The status and the line that the beginning of this length is to have: those of the last line of the answers that counts from it
// or before.
fn answer_at(answers: &str, length: usize) -> Option<(u8, &str)> {
    let mut found = None;
    for line in answers.lines() {
        let (from, answer) = line.split_once(' ')?;
        if from.parse::<usize>().ok()? > length {
            break;
        }
        let (status, told) = answer.split_once(' ').unwrap_or((answer, ""));
        found = Some((status.parse::<u8>().ok()?, told));
    }
    found
}

// The bytes are this text and a newline, or none where there is no text.
fn is_line(bytes: &[u8], text: &str) -> bool {
    match bytes.strip_suffix(b"\n") {
        Some(line) => !text.is_empty() && line == text.as_bytes(),
        None => text.is_empty() && bytes.is_empty(),
    }
}

// The lengths of those beginnings of a file whose status or line is not as it is to be, each behind a blank.
fn beginnings(alloc: Global, case: &Case, name: &str) -> io::Result<String> {
    let mut told = String::new(alloc);
    for end in 0..=length_of(case, name) {
        let mut desk = desk_of(alloc, case, Some((name, end)))?;
        let status = run(alloc, case, &mut desk)?;
        let warned = desk.warned_bytes();
        let wanted = answer_at(case.answers.as_str(), end);
        if !matches!(wanted, Some((number, text)) if number == status && is_line(warned, text)) {
            add(&mut told, &format!(in alloc; "{end}")?)?;
        }
    }
    Ok(told)
}

// What differs of what a case tells, each word behind a blank.
pub(crate) fn told_wrongly(alloc: Global, case: &Case) -> io::Result<String> {
    if let Some(name) = &case.beginnings {
        return beginnings(alloc, case, name.as_str());
    }
    match case.rooms {
        Some((said, warned)) => differences(alloc, case, room_desk_of(alloc, case, said, warned)?),
        None => differences(alloc, case, desk_of(alloc, case, None)?),
    }
}
