// What is said of views that don't fit their sheet.
ghost use Rattle.std.specs.Prelude.{◌≡◌, IfOk, string_bytes};
ghost use Rattle.sheet_page.specs.BlockNames.{scale_text};
ghost use Rattle.sheet_core.specs.Rooms.{behind_point, more_text, lack_text, no_room_line, would_do_text};

use job_file::{Paper, Scale};
use sheet_layout::NoRoom;
use std::alloc::{AllocError, Global};

/// Tenths and hundredths of a millimetre behind a point, without zeros at the end.
fn behind_point(alloc: Global, tenths: u64, last: u64) -> Result<String, AllocError>
    ensures { IfOk result (λ text. string_bytes text ≡ behind_point tenths last) }
{
    if last != 0 {
        format!(in alloc; ".{tenths}{last}")
    } else if tenths != 0 {
        format!(in alloc; ".{tenths}")
    } else {
        Ok(String::new(alloc))
    }
}

/// So many hundredths of a millimetre more, in mm.
fn more_text(alloc: Global, length: u64) -> Result<String, AllocError>
    ensures { IfOk result (λ text. string_bytes text ≡ more_text length) }
{
    let whole = length / 100;
    let behind = behind_point(alloc, length / 10 % 10, length % 10)?;
    format!(in alloc; "{whole}{behind} mm more ")
}

/// How much more is needed.
fn lack_text(alloc: Global, across: u64, down: u64) -> Result<String, AllocError>
    ensures { IfOk result (λ text. string_bytes text ≡ lack_text across down) }
{
    let (wide, high) = (more_text(alloc, across)?, more_text(alloc, down)?);
    if across != 0 && down != 0 {
        format!(in alloc; ": {wide}across and {high}down are needed")
    } else if across != 0 {
        format!(in alloc; ": {wide}across is needed")
    } else if down != 0 {
        format!(in alloc; ": {high}down is needed")
    } else {
        Ok(String::new(alloc))
    }
}

/// A scale, as it is written: `1:2`.
fn scale_text(alloc: Global, scale: &Scale) -> Result<String, AllocError>
    ensures { IfOk result (λ text. string_bytes text ≡ scale_text scale.now) }
{
    let (num, den) = (scale.num, scale.den);
    format!(in alloc; "{num}:{den}")
}

/// What would do: a smaller scale, or a larger sheet.
fn would_do_text(
    alloc: Global,
    smaller: &Option<Scale>,
    larger: &Option<Paper>,
) -> Result<String, AllocError>
    ensures { IfOk result (λ text. string_bytes text ≡ would_do_text smaller.now larger.now) }
{
    match (smaller, larger) {
        (None, None) => Ok(String::new(alloc)),
        (Some(scale), None) => {
            let scale = scale_text(alloc, scale)?;
            format!(in alloc; "; a scale of {scale} would do")
        }
        (None, Some(paper)) => {
            let paper = paper.name();
            format!(in alloc; "; a sheet of {paper} would do")
        }
        (Some(scale), Some(paper)) => {
            let (scale, paper) = (scale_text(alloc, scale)?, paper.name());
            format!(in alloc; "; a scale of {scale} or a sheet of {paper} would do")
        }
    }
}

/// The line of views that don't fit: what is missing, and what would do.
pub(crate) fn no_room_line(alloc: Global, lack: &NoRoom) -> Result<String, AllocError>
    ensures { IfOk result (λ line. string_bytes line ≡ no_room_line lack.now) }
{
    let paper = lack.paper.name();
    let scale = scale_text(alloc, &lack.scale)?;
    let lacks = lack_text(alloc, lack.more_across, lack.more_down)?;
    let would_do = would_do_text(alloc, &lack.smaller, &lack.larger)?;
    format!(in alloc; "sheet: the views don't fit on {paper} at {scale}{lacks}{would_do}\n")
}
