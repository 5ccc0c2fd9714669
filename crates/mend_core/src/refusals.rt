// The lines of faults.
ghost use Rattle.std.specs.Prelude.{◌≡◌, IfOk, Some, string_bytes};
ghost use Rattle.mend_core.specs.Lines.{about, advice, goal_line, mend_line, other_line, surface_text, unread_text, unwritten_line, write_line};
ghost use Rattle.mend_words.specs.Seen.{goal_seen, named_seen};
ghost use Rattle.part_lines.specs.PartTexts.{part_text};

use crate::lines::{SAID_LINE, SUMMARY_LINE, USAGE};
use desk_reasons::{Reason, reason_text};
use mend_words::{MendRequest, Out};
use part_input::{Fault, Target};
use part_lines::{PartHint, advice_text, mesh_text, part_text};
use solid_mesh::MeshFault;
use std::alloc::{AllocError, Global};
use weld::PartFault;

/// A line about a part, and what is wrong.
fn about(alloc: Global, name: &str, text: &str) -> Result<String, AllocError>
    ensures { IfOk result (λ line. string_bytes line ≡ about name.now text.now) }
{
    let name = fault_lines::shown(alloc, name)?;
    format!(in alloc; "mend: {name}: {text}\n")
}

/// The line of a part that can't be read.
fn unread_line(alloc: Global, name: &str, reason: Option<Reason>) -> Result<String, AllocError>
    ensures { IfOk result (λ line. string_bytes line ≡ about name.now (unread_text reason)) }
{
    let why = reason_text(reason);
    let text = format!(in alloc; "cannot be read{why}")?;
    about(alloc, name, text.as_str())
}

/// The line of a part whose text is refused.
fn text_line(
    alloc: Global,
    name: &str,
    fault: &PartFault,
    hint: &PartHint,
) -> Result<String, AllocError>
    ensures { IfOk result (λ line. string_bytes line ≡ about name.now (part_text fault.now hint.now)) }
{
    let text = part_text(alloc, fault, hint)?;
    about(alloc, name, text.as_str())
}

/// What helps with the surface that flips left: more decimals, where there may be more and rounding made the fault.
fn advice(decimals: u8, fault: &MeshFault) -> &'static str
    ensures { result.now ≡ advice decimals fault.now }
{
    if decimals < 6 {
        advice_text(fault, true)
    } else {
        ": docs/from-cad.md says how it is mended"
    }
}

/// The line of a part that isn't sound after flips.
fn surface_line(
    alloc: Global,
    request: &MendRequest,
    fault: &MeshFault,
) -> Result<String, AllocError>
    ensures { IfOk result (λ line. string_bytes line ≡ about (named_seen request.now).part (surface_text (named_seen request.now).decimals fault.now)) }
{
    let text = mesh_text(alloc, fault)?;
    let helps = advice(request.decimals, fault);
    let text = format!(in alloc; "{text}{helps}")?;
    about(alloc, request.part.as_str(), text.as_str())
}

/// The line of a file that can't be written.
fn unwritten_line(alloc: Global, name: &str, reason: Option<Reason>) -> Result<String, AllocError>
    ensures { IfOk result (λ line. string_bytes line ≡ unwritten_line name.now reason) }
{
    let name = fault_lines::shown(alloc, name)?;
    let why = reason_text(reason);
    format!(in alloc; "mend: cannot write {name}{why}\n")
}

/// The line of a part that can't be written where it goes.
fn goal_line(alloc: Global, out: &Out, reason: Option<Reason>) -> Result<String, AllocError>
    ensures { IfOk result (λ line. string_bytes line ≡ goal_line (goal_seen out.now) reason) }
{
    match out {
        Out::Said => String::from_str(alloc, SAID_LINE),
        Out::File(name) => unwritten_line(alloc, name.as_str(), reason),
    }
}

/// The line of what can't be written: the part, or the summary.
fn write_line(
    alloc: Global,
    out: &Out,
    reason: Option<Reason>,
    target: &Target,
) -> Result<String, AllocError>
    ensures { IfOk result (λ line. string_bytes line ≡ write_line (goal_seen out.now) reason target.now) }
{
    match target {
        Target::Out => goal_line(alloc, out, reason),
        Target::Plot(_) | Target::Summary => String::from_str(alloc, SUMMARY_LINE),
    }
}

/// The line of a fault that is none of a part.
fn other_line(alloc: Global, fault: &Fault) -> Result<String, AllocError>
    ensures { IfOk result (λ line. string_bytes line ≡ other_line fault.now) }
{
    let line = fault_lines::line_of(alloc, "mend", USAGE, fault)?;
    String::from_str(alloc, line.as_str())
}

/// The line of a fault in a run of this request: the name, what is wrong, where, and what helps or why.
pub(crate) fn line_of(
    alloc: Global,
    request: &MendRequest,
    hint: &PartHint,
    reason: Option<Reason>,
    fault: &Fault,
) -> Result<String, AllocError>
    ensures { IfOk result (λ line. string_bytes line ≡ mend_line (Some (named_seen request.now)) hint.now reason fault.now) }
{
    let part = request.part.as_str();
    match fault {
        Fault::ReadFault(_) => unread_line(alloc, part, reason),
        Fault::SampleRange => about(alloc, part, "outside sample:1 to sample:8"),
        Fault::PartTooLong => about(alloc, part, "more than 16777216 bytes"),
        Fault::Part(fault) => text_line(alloc, part, fault, hint),
        Fault::Nothing => about(alloc, part, "no triangle"),
        Fault::Mesh(fault) => surface_line(alloc, request, fault),
        Fault::WriteFault(target) => write_line(alloc, &request.out, reason, target),
        _ => other_line(alloc, fault),
    }
}
