// The lines of faults.
ghost use Rattle.std.specs.Prelude.{◌≡◌, IfOk, None, Some, codes, option_map, string_bytes};
ghost use Rattle.desk_reasons.specs.ReasonTexts.{reason_text};
ghost use Rattle.svg_page.specs.Texts.{◌⊕◌};
ghost use Rattle.fault_lines.specs.Lines.{shown};
ghost use Rattle.part_lines.specs.PartTexts.{part_text};
ghost use Rattle.sheet_core.specs.Refusals.{about, common_line, fault_line, flaw_line, own_line, place_told, hint_told, job_in, job_text, list_line, room_text, size_text, surface_text, target_line, unread_text, unwritten_line, write_line};
ghost use Rattle.sheet_words.specs.Seen.{goal_seen, list_seen, named_seen};

use crate::jobs::{job_text, plotter_text};
use crate::parts::{Size, room_text, size_text, surface_text};
use crate::rooms::no_room_line;
use desk_reasons::{Reason, reason_text};
use fault_lines::shown;
use flaw_lines::flaw_text;
use job_file::JobFault;
use part_input::{Fault, Input, Target};
use part_lines::{PartHint, part_text};
use sheet_input::{FaultPlace, SheetFault, Told};
use sheet_job::PlacedFlaw;
use sheet_words::{ListOut, Out, SheetRequest};
use solid_mesh::MeshFault;
use std::alloc::{AllocError, Global};
use weld::PartFault;

/// The line of words that are refused.
pub const USAGE_LINE: &str =
    "sheet: usage: sheet PART [--job JOB] [--out OUT] [--list LIST] [--plain-job FILE] [--hidden all|plain|none] [--title TEXT] [--number TEXT] [--revision TEXT] [--material TEXT] [--date TEXT]; sheet --help tells more\n";

/// The line of want of memory.
pub const MEMORY_LINE: &str = "sheet: out of memory\n";

/// The line of a text that couldn't be said.
pub const SAID_LINE: &str = "sheet: cannot write the standard output\n";

// A line about a file, and what is wrong.
fn about(alloc: Global, name: &str, text: &str) -> Result<String, AllocError>
    ensures { IfOk result (λ line. string_bytes line ≡ about name.now text.now) }
{
    let name = shown(alloc, name)?;
    format!(in alloc; "sheet: {name}: {text}\n")
}

// The line of a file that can't be written.
fn unwritten(alloc: Global, name: &str, reason: Option<Reason>) -> Result<String, AllocError>
    ensures { IfOk result (λ line. string_bytes line ≡ unwritten_line name.now reason) }
{
    let (name, reason) = (shown(alloc, name)?, reason_text(reason));
    format!(in alloc; "sheet: cannot write {name}{reason}\n")
}

/// The line of a sheet that can't be written where it goes.
pub fn write_line(alloc: Global, out: &Out, reason: Option<Reason>) -> Result<String, AllocError>
    ensures { IfOk result (λ line. string_bytes line ≡ write_line (goal_seen out.now) reason) }
{
    match out {
        Out::Said => String::from_str(alloc, SAID_LINE),
        Out::Svg(name) => unwritten(alloc, name.as_str(), reason),
        Out::Pdf(name) => unwritten(alloc, name.as_str(), reason),
    }
}

/// The line of a list that can't be written where it goes.
pub fn list_line(
    alloc: Global,
    list: &Option<ListOut>,
    reason: Option<Reason>,
) -> Result<String, AllocError>
    ensures { IfOk result (λ line. string_bytes line ≡ list_line (option_map list_seen list.now) reason) }
{
    match list {
        None | Some(ListOut::Said) => String::from_str(alloc, SAID_LINE),
        Some(ListOut::File(name)) => unwritten(alloc, name.as_str(), reason),
    }
}

// The job's name, or what stands for it.
fn job_name(request: &SheetRequest) -> &str
    ensures { result.now ≡ job_in (Some (named_seen request.now)) }
{
    match &request.job {
        Some(name) => name.as_str(),
        None => "the usual job",
    }
}

// A line about a job, and what is wrong with it.
fn job_line(alloc: Global, job: &str, fault: &JobFault) -> Result<String, AllocError>
    ensures { IfOk result (λ line. string_bytes line ≡ about job.now (job_text fault.now)) }
{
    let text = job_text(alloc, fault)?;
    about(alloc, job, text.as_str())
}

// A line about a job one of whose outputs has no plotter.
fn plotter_line(alloc: Global, job: &str, name: &str) -> Result<String, AllocError>
    ensures { IfOk result (λ line. string_bytes line ≡ about job.now (codes "no plotter " ⊕ shown name.now)) }
{
    let text = plotter_text(alloc, name)?;
    about(alloc, job, text.as_str())
}

// What is wrong with a part's text, with the hint that is told.
fn hinted_text(alloc: Global, told: &Told, fault: &PartFault) -> Result<String, AllocError>
    ensures { IfOk result (λ text. string_bytes text ≡ part_text fault.now (hint_told told.now)) }
{
    match told {
        Told::Text(hint) => part_text(alloc, fault, hint),
        Told::Nothing | Told::Surface(_) | Told::Job(_) => {
            part_text(alloc, fault, &PartHint::Nothing)
        }
    }
}

// A line about a part, the place in its text, what is wrong there, and what helps.
fn place_line(
    alloc: Global,
    part: &str,
    told: &Told,
    fault: &PartFault,
) -> Result<String, AllocError>
    ensures { IfOk result (λ line. string_bytes line ≡ about part.now (part_text fault.now (hint_told told.now))) }
{
    let text = hinted_text(alloc, told, fault)?;
    about(alloc, part, text.as_str())
}

// A line about a part, and what is wrong with its surface.
fn surface_line(
    alloc: Global,
    part: &str,
    place: &Option<FaultPlace>,
    fault: &MeshFault,
) -> Result<String, AllocError>
    ensures { IfOk result (λ line. string_bytes line ≡ about part.now (surface_text place.now fault.now)) }
{
    let text = surface_text(alloc, place, fault)?;
    about(alloc, part, text.as_str())
}

// A line about a part, what its views need, and what the sheet has.
fn room_line(alloc: Global, part: &str, need: &str, have: &str) -> Result<String, AllocError>
    ensures { IfOk result (λ line. string_bytes line ≡ about part.now (room_text need.now have.now)) }
{
    let text = room_text(alloc, need, have)?;
    about(alloc, part, text.as_str())
}

// The same, by the numbers.
fn size_line(alloc: Global, part: &str, need: &Size, have: &Size) -> Result<String, AllocError>
    ensures { IfOk result (λ line. string_bytes line ≡ about part.now (room_text (size_text need.now.width need.now.height) (size_text have.now.width have.now.height))) }
{
    let need = size_text(alloc, need)?;
    let have = size_text(alloc, have)?;
    room_line(alloc, part, need.as_str(), have.as_str())
}

// What is wrong with a file that can't be read.
fn unread_text(alloc: Global, reason: Option<Reason>) -> Result<String, AllocError>
    ensures { IfOk result (λ text. string_bytes text ≡ unread_text reason) }
{
    let reason = reason_text(reason);
    format!(in alloc; "cannot be read{reason}")
}

// The line of a file that can't be read.
pub(crate) fn unread(
    alloc: Global,
    request: &SheetRequest,
    reason: Option<Reason>,
    input: &Input,
) -> Result<String, AllocError>
    ensures { IfOk result (λ line. string_bytes line ≡ common_line (Some (named_seen request.now)) Told.Nothing reason (Fault.ReadFault input.now)) }
{
    let text = unread_text(alloc, reason)?;
    match input {
        Input::Job => about(alloc, job_name(request), text.as_str()),
        Input::Part => about(alloc, request.part.as_str(), text.as_str()),
    }
}

// The line of what couldn't be written: the sheet, or the summary of it and of its list.
fn target_line(
    alloc: Global,
    request: &SheetRequest,
    reason: Option<Reason>,
    target: &Target,
) -> Result<String, AllocError>
    ensures { IfOk result (λ line. string_bytes line ≡ target_line (Some (named_seen request.now)) reason target.now) }
{
    match target {
        Target::Out => write_line(alloc, &request.out, reason),
        Target::Plot(_) | Target::Summary => String::from_str(alloc, SAID_LINE),
    }
}

// The line of what is wrong with a job, with the place there.
fn flaw_line(alloc: Global, job: &str, flaw: &PlacedFlaw) -> Result<String, AllocError>
    ensures { IfOk result (λ line. string_bytes line ≡ flaw_line job.now flaw.now) }
{
    let (name, text) = (shown(alloc, job)?, flaw_text(alloc, flaw)?);
    format!(in alloc; "sheet: {name}:{text}\n")
}

// The line of a job that is wrong.
fn own_line(alloc: Global, request: &SheetRequest, told: &Told) -> Result<String, AllocError>
    ensures { IfOk result (λ line. string_bytes line ≡ own_line (Some (named_seen request.now)) told.now) }
{
    let job = job_name(request);
    match told {
        Told::Job(flaw) => flaw_line(alloc, job, flaw),
        Told::Nothing | Told::Text(_) | Told::Surface(_) => about(alloc, job, "no job"),
    }
}

// The place that is told.
fn place_told(told: &Told) -> Option<FaultPlace>
    ensures { result ≡ place_told told.now }
{
    match told {
        Told::Surface(place) => Some(*place),
        Told::Nothing | Told::Text(_) | Told::Job(_) => None,
    }
}

/// The line of a fault in a run of this request, with what is told beside it, and with the system's reason.
pub(crate) fn line_of(
    alloc: Global,
    request: &SheetRequest,
    told: &Told,
    reason: Option<Reason>,
    fault: &SheetFault,
) -> Result<String, AllocError>
    ensures { IfOk result (λ line. string_bytes line ≡ fault_line (Some (named_seen request.now)) told.now reason fault.now) }
{
    match fault {
        SheetFault::Common(fault) => common_line(alloc, request, told, reason, fault),
        SheetFault::OwnJob => own_line(alloc, request, told),
        SheetFault::NoRoom(lack) => no_room_line(alloc, lack),
        SheetFault::WriteList => list_line(alloc, &request.list, reason),
        SheetFault::WritePlain => list_line(alloc, &request.plain, reason),
    }
}

/// The line of a fault that `draw` has too, in a run of this request, with what is told beside it: the file's name, the place there, what is wrong, and
/// what is allowed or helps, and the system's reason if a file can't be read or written.
pub fn common_line(
    alloc: Global,
    request: &SheetRequest,
    told: &Told,
    reason: Option<Reason>,
    fault: &Fault,
) -> Result<String, AllocError>
    ensures { IfOk result (λ line. string_bytes line ≡ common_line (Some (named_seen request.now)) told.now reason fault.now) }
{
    let (part, job) = (request.part.as_str(), job_name(request));
    match fault {
        Fault::Usage => String::from_str(alloc, USAGE_LINE),
        Fault::ReadFault(input) => unread(alloc, request, reason, input),
        Fault::JobTooLong => about(alloc, job, "more than 65536 bytes"),
        Fault::Job(fault) => job_line(alloc, job, fault),
        Fault::NoPlotter(name) => plotter_line(alloc, job, name.as_str()),
        Fault::SampleRange => about(alloc, part, "outside sample:1 to sample:8"),
        Fault::PartTooLong => about(alloc, part, "more than 16777216 bytes"),
        Fault::Part(fault) => place_line(alloc, part, told, fault),
        Fault::Nothing => about(alloc, part, "no triangle"),
        Fault::Mesh(fault) => surface_line(alloc, part, &place_told(told), fault),
        Fault::DoesNotFit {
            need_w,
            need_h,
            have_w,
            have_h,
        } => {
            let need = Size {
                width: *need_w,
                height: *need_h,
            };
            let have = Size {
                width: *have_w,
                height: *have_h,
            };
            size_line(alloc, part, &need, &have)
        }
        Fault::WriteFault(target) => target_line(alloc, request, reason, target),
        Fault::Memory => String::from_str(alloc, MEMORY_LINE),
    }
}
