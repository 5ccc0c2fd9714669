// What is written of a mended part, made before anything is.
ghost use Rattle.std.specs.Prelude.{◌≡◌, ◌≤◌, IfOk, string_bytes};
ghost use Rattle.mend_core.specs.Seen.{made_seen, told_seen};
ghost use Rattle.mend_core.specs.Telling.{hundredths_of, hundredths_text, pairs_text, told_text};
ghost use Rattle.mend_core.specs.inner.Texts.{AreTextsOf};

use crate::lists::soup_of;
use crate::made::{Mended, Report};
use exact_frac::OutOfMemory;
use off_writer::off_text;
use std::alloc::{AllocError, Global};

/// The text of a part, and the line that tells of it.
#[derive(Drop)]
pub(crate) struct Texts {
    pub(crate) part: Vec<u8>,
    pub(crate) summary: String,
}

/// Hundredths of a unit, from 1024ths, rounded up.
fn hundredths_of(moved: u32) -> u64
    ensures { result ≡ hundredths_of moved }
{
    (u64::from(moved) * 100 + 1023) / 1024
}

/// So many hundredths, as a number with two decimals.
fn hundredths_text(alloc: Global, hundredths: u64) -> Result<String, AllocError>
    ensures { IfOk result (λ text. string_bytes text ≡ hundredths_text hundredths) }
{
    let whole = hundredths / 100;
    let tenth = hundredths / 10 % 10;
    let last = hundredths % 10;
    format!(in alloc; "{whole}.{tenth}{last}")
}

/// How many pairs of triangles went, where some did.
fn pairs_text(alloc: Global, pairs: u32) -> Result<String, AllocError>
    ensures { IfOk result (λ text. string_bytes text ≡ pairs_text pairs) }
{
    if pairs == 0 {
        return Ok(String::new(alloc));
    }
    format!(in alloc; " pairs {pairs}")
}

/// The line of a part that was mended.
fn mended_text(alloc: Global, flips: u64, moved: u32, pairs: u32) -> Result<String, AllocError>
    ensures { IfOk result (λ text. string_bytes text ≡ told_text (told_seen (Report.Mended flips moved pairs))) }
{
    let far = hundredths_text(alloc, hundredths_of(moved))?;
    let gone = pairs_text(alloc, pairs)?;
    format!(in alloc; "mended flips {flips} moved at most {far} units{gone}\n")
}

/// The line that tells how a part came to be sound.
fn told_text(alloc: Global, report: &Report) -> Result<String, AllocError>
    ensures { IfOk result (λ text. string_bytes text ≡ told_text (told_seen report.now)) }
{
    match report {
        Report::Sound => String::from_str(alloc, "sound already\n"),
        Report::Mended {
            flips,
            moved,
            pairs,
        } => mended_text(alloc, *flips, *moved, *pairs),
    }
}

/// What is written of a mended part that was read with so many decimals.
pub(crate) fn texts_of(alloc: Global, decimals: u8, mended: &Mended) -> Result<Texts, OutOfMemory>
    requires { decimals ≤ 6 }
    ensures { IfOk result (AreTextsOf decimals (made_seen mended.now)) }
{
    let soup = soup_of(alloc, &mended.solid)?;
    let part = off_text(alloc, decimals, &soup.corners, &soup.triangles)?;
    let summary = told_text(alloc, &mended.report)?;
    Ok(Texts { part, summary })
}
