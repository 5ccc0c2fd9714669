//! Runs cases of `draw`, with its plotters at hand, of `sheet`, `pieces` and `mend` over files in memory, and prints each case that differs, and
//! how many did: `test_cases FILE ..`. A case is told by lines that begin with `== `, each with a mark, and by the lines behind them,
//! which are the mark's text. What stands before the first mark is a remark.
//!
//!     == case NAME               begins a case; the name may have blanks
//!     == program NAME            the program that runs, `draw` where there is no such line
//!     == words WORD ..           the words of the run, none where there is no such line
//!     == file NAME               the text is added to this file of the desk
//!     == open NAME               the same without the text's last newline
//!     == take NAME FILE          the bytes of a real file are added to this file of the desk
//!     == bytes NAME BYTE COUNT   so many times this byte are added to this file of the desk
//!     == fail NUMBER ..          the calls of the desk, from 0, that fail
//!     == left COUNT              how many bytes a failed call leaves; with no such line it changes nothing
//!     == rooms SAID WARNED       the desk has rooms of these sizes for what is said and warned, and no call of it is told to fail
//!     == slot NAME SIZE          a name that may be kept on such a desk, and the room for its bytes
//!     == status NUMBER           the status, 0 where there is no such line
//!     == said                    the text is all that is said, and with no such line nothing
//!     == warned                  the same of what is warned
//!     == kept NAME               afterwards the desk has this file with this text
//!     == holds NAME FILE         afterwards the desk has this file with the bytes of a real file
//!     == made NAME               afterwards the desk has this file
//!     == gone NAME               afterwards the desk has no such file
//!     == beginnings NAME         each beginning of this file is a run. A line `LENGTH STATUS LINE` of the text tells the status and
//!                                what is warned, without its newline, from this length on; nothing else is looked at
//!     == differs WHAT ..         what is told above is wrong in this, so that the comparison itself is tried
#![tactic(auto)]

mod case;
mod compare;
mod judge;
mod read;

use case::Case;
use compare::told_wrongly;
use std::process::ExitCode;
use std::rt::{Env, Files};
use std::{env, fs, io};

// How many cases there were, and how many of them differed.
#[derive(Clone, Copy)]
struct Tally {
    cases: u32,
    differing: u32,
}

// Counts a case, and prints it where it differs.
fn count<R: Print>(rt: &R, tally: &mut Tally, name: &str, told: &str) -> io::Result<()> {
    tally.cases = tally.cases.saturating_add(1);
    if told.is_empty() {
        return Ok(());
    }
    tally.differing = tally.differing.saturating_add(1);
    println!(rt; "{name}: differs in{told}")
}

// Runs a case, counts it, and prints it where it differs.
fn run_case<R: Print + AllocGlobal>(rt: &R, tally: &mut Tally, case: &Case) -> io::Result<()> {
    let told = told_wrongly(rt.alloc(), case)?;
    if told.as_str() == case.differs.as_str() {
        return count(rt, tally, case.name.as_str(), "");
    }
    if told.is_empty() {
        return count(rt, tally, case.name.as_str(), " nothing");
    }
    count(rt, tally, case.name.as_str(), told.as_str())
}

// Runs the case that was read, if there is one, and begins the next.
fn next_case<R: Print + AllocGlobal>(
    rt: &R,
    tally: &mut Tally,
    last: &mut Option<Case>,
    name: &str,
) -> io::Result<()> {
    if let Some(case) = last {
        run_case(rt, tally, case)?;
    }
    *last = Some(Case::new(rt.alloc(), name)?);
    Ok(())
}

// Takes one mark with its text. One that can't be taken is a difference.
fn take_mark<R: Print + Files + AllocGlobal>(
    rt: &R,
    tally: &mut Tally,
    last: &mut Option<Case>,
    piece: &str,
) -> io::Result<()> {
    let (line, text) = match piece.split_once('\n') {
        Some((line, text)) => (line, Some(text)),
        None => (piece, None),
    };
    if let Some(name) = line.strip_prefix("case ") {
        return next_case(rt, tally, last, name);
    }
    if let Some(case) = last {
        if matches!(read::add(rt, case, line, text), Ok(true)) {
            return Ok(());
        }
    }
    count(rt, tally, line, " a mark")
}

// Runs the cases of a file.
fn run_file<R: Print + Files + AllocGlobal>(
    rt: &R,
    tally: &mut Tally,
    name: &str,
) -> io::Result<()> {
    let Ok(text) = fs::read_to_string(rt, name) else {
        return count(rt, tally, name, " a file of cases");
    };
    let text = text.strip_suffix('\n').unwrap_or(&text);
    let mut last = None;
    for (place, piece) in text.split("\n== ").enumerate() {
        if place > 0 {
            take_mark(rt, tally, &mut last, piece)?;
        }
    }
    if let Some(case) = &last {
        run_case(rt, tally, case)?;
    }
    Ok(())
}

fn run_files<R: Print + Files + Env + AllocGlobal>(rt: &R) -> io::Result<Tally> {
    let mut tally = Tally {
        cases: 0,
        differing: 0,
    };
    for word in env::args(rt)?.skip(1) {
        run_file(rt, &mut tally, word.as_str())?;
    }
    println!(rt; "{} cases, {} differ", tally.cases, tally.differing)?;
    Ok(tally)
}

fn main(rt: HostRuntime) -> ExitCode {
    match run_files(&rt) {
        Ok(tally) if tally.differing == 0 => ExitCode::SUCCESS,
        _ => ExitCode::from(1),
    }
}
