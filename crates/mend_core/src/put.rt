// Puts the texts of a mended part where they go.
ghost use Rattle.std.specs.Prelude.{◌≡◌, true, None, Some, IfNone, string_bytes};
ghost use Rattle.desk_reasons.specs.Reasons.{MayGive};
ghost use Rattle.mend_core.specs.Lines.{mend_line};
ghost use Rattle.mend_core.specs.Writing.{summary_way, texts_for, way_of};
ghost use Rattle.mend_core.specs.inner.FileLines.{AreFileLines};
ghost use Rattle.mend_words.specs.Seen.{goal_seen, named_seen};
ghost use Rattle.part_input.specs.Causes.{common};
ghost use Rattle.part_lines.specs.declared.hint.PartHint.TheVariants.{Nothing};
ghost use Rattle.put_texts.specs.Desks.{HearsAll, IsUnwarned};
ghost use Rattle.put_texts.specs.Noting.{IsQuiet, Notes, NotesWhole};
ghost use Rattle.put_texts.specs.Puts.{one_text, way_seen};
ghost use Rattle.put_texts.specs.Reasoned.{IsPutWith, IsWarnedWith};

use crate::file_lines::FileLines;
use crate::lines::{MEMORY_LINE, SUMMARY_LINE};
use crate::refusals::line_of;
use crate::texts::Texts;
use desk_reasons::Reasons;
use mend_words::{MendRequest, Out};
use part_input::{Fault, Target};
use part_lines::PartHint;
use put_texts::{PutFault, Way, note, place_text, unless_said, warn};
use std::alloc::Global;

/// The way of a part.
fn way_of(out: &Out) -> Way<'_>
    ensures { way_seen result ≡ way_of (goal_seen out.now) }
{
    match out {
        Out::Said => Way::Aloud,
        Out::File(name) => Way::Under(name),
    }
}

/// The way of what is told of it.
fn summary_way(out: &Out) -> Way<'_>
    ensures { way_seen result ≡ summary_way (goal_seen out.now) }
{
    unless_said(way_of(out), Way::Aloud)
}

/// Warns of a text that couldn't be put by its line with the reason that the desk knows. Where that finds no memory it warns by the
/// line that is there, which has none.
fn warn_of<D: Reasons>(
    alloc: Global,
    request: &MendRequest,
    found: &PutFault<'_, Fault>,
    desk: &mut D,
)
    requires { found.now.line.now ≡ mend_line (Some (named_seen request.now)) Nothing None found.now.fault }
    ensures { IsWarnedWith (D.reason desk.old) (λ reason. mend_line (Some (named_seen request.now)) Nothing reason found.now.fault) (D.state desk.old) (D.state desk.new) }
{
    let reason = desk.last_reason();
    match line_of(alloc, request, &PartHint::Nothing, reason, &found.fault) {
        Ok(line) => warn(line.as_str(), desk),
        Err(_) => warn(found.line, desk),
    }
}

/// Puts a text of a request where it goes, and tells why it couldn't, of which it warns by a line.
fn put_one<D: Reasons>(
    alloc: Global,
    request: &MendRequest,
    way: Way<'_>,
    bytes: &[u8],
    line: &str,
    target: Target,
    desk: &mut D,
) -> Option<Fault>
    requires { line.now ≡ mend_line (Some (named_seen request.now)) Nothing None (Fault.WriteFault target) }
    ensures put { IsPutWith (MayGive D.reason) common (mend_line (Some (named_seen request.now)) Nothing) (one_text (way_seen way.entry) (Fault.WriteFault target) bytes.now) result
        (D.state desk.old) (D.state desk.new) }
    ensures unwarned { IfNone result (IsUnwarned (D.state desk.old) (D.state desk.new)) }
{
    match place_text(way, bytes, target, line, MEMORY_LINE, desk) {
        None => None,
        Some(found) => {
            warn_of(alloc, request, &found, desk);
            Some(found.fault)
        }
    }
}

/// Says the summary of a request, or warns by it, and tells why it couldn't be said.
fn put_summary<D: Reasons>(
    alloc: Global,
    request: &MendRequest,
    summary: &str,
    desk: &mut D,
) -> Option<Fault>
    ensures put { IsPutWith (MayGive D.reason) common (mend_line (Some (named_seen request.now)) Nothing) (one_text (summary_way (named_seen request.now).out) (Fault.WriteFault Target.Summary) summary.now) result
        (D.state desk.old) (D.state desk.new) }
    ensures noted { (D.state desk.old).tells_warned ≡ true →
        IfNone result (Notes (summary_way (named_seen request.now).out) summary.now (D.state desk.old).warned (D.state desk.new).warned) }
    ensures noted_whole { HearsAll (D.state desk.old) (D.state desk.new) →
        IfNone result (NotesWhole (summary_way (named_seen request.now).out) summary.now (D.state desk.old).warned (D.state desk.new).warned) }
    ensures quiet { IfNone result (IsQuiet (summary_way (named_seen request.now).out) (D.state desk.old).warn_faults (D.state desk.new).warn_faults) }
{
    let way = summary_way(&request.out);
    match put_one(
        alloc,
        request,
        way,
        summary.as_bytes(),
        SUMMARY_LINE,
        Target::Summary,
        desk,
    ) {
        None => {
            note(way, summary, desk);
            None
        }
        Some(fault) => Some(fault),
    }
}

/// Puts the part and the summary of a request where they go, one after the other up to the first that can't be written, and tells why
/// it couldn't. A summary that isn't said is warned by; that it isn't heard is no fault.
pub(crate) fn put<D: Reasons>(
    alloc: Global,
    request: &MendRequest,
    lines: &FileLines,
    texts: &Texts,
    desk: &mut D,
) -> Option<Fault>
    requires { AreFileLines (named_seen request.now) lines.now }
    ensures put { IsPutWith (MayGive D.reason) common (mend_line (Some (named_seen request.now)) Nothing) (texts_for (named_seen request.now).out texts.now.part.items (string_bytes texts.now.summary)) result
        (D.state desk.old) (D.state desk.new) }
    ensures noted { (D.state desk.old).tells_warned ≡ true →
        IfNone result (Notes (summary_way (named_seen request.now).out) (string_bytes texts.now.summary) (D.state desk.old).warned (D.state desk.new).warned) }
    ensures noted_whole { HearsAll (D.state desk.old) (D.state desk.new) →
        IfNone result (NotesWhole (summary_way (named_seen request.now).out) (string_bytes texts.now.summary) (D.state desk.old).warned (D.state desk.new).warned) }
    ensures quiet { IfNone result (IsQuiet (summary_way (named_seen request.now).out) (D.state desk.old).warn_faults (D.state desk.new).warn_faults) }
{
    let way = way_of(&request.out);
    let line = lines.unwritten.as_str();
    match put_one(alloc, request, way, &texts.part, line, Target::Out, desk) {
        None => put_summary(alloc, request, texts.summary.as_str(), desk),
        Some(fault) => Some(fault),
    }
}
