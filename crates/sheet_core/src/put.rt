// Puts the texts of a drawing where they go, one after the other, and warns where it can't.
ghost use Rattle.std.specs.Prelude.{◌≡◌, true, None, Some, IfNone, string_bytes};
ghost use Rattle.put_texts.specs.Desks.{HearsAll, IsUnwarned};
ghost use Rattle.put_texts.specs.Noting.{IsQuiet, Notes, NotesWhole};
ghost use Rattle.put_texts.specs.Puts.{one_text, way_seen};
ghost use Rattle.sheet_input.specs.Faults.{unwritten_of};
ghost use Rattle.sheet_core.specs.Writing.{list_way, summary_way, texts_for, way_of};
ghost use Rattle.sheet_core.specs.inner.Puts.{texts_after_sheet, texts_after_list};
ghost use Rattle.put_texts.specs.Reasoned.{IsWarnedWith};
ghost use Rattle.sheet_core.specs.inner.Warnings.{IsPutWith};
ghost use Rattle.sheet_core.specs.Refusals.{fault_line, list_line, write_line};
ghost use Rattle.sheet_words.specs.Seen.{goal_seen, named_seen};

use crate::refusals::{MEMORY_LINE, SAID_LINE, line_of};
use crate::texts::Texts;
use desk_reasons::Reasons;
use part_input::{Fault, Target};
use put_texts::{PutFault, Way, note, place_text, unless_said, warn};
use sheet_input::{SheetFault, SheetTarget, Told};
use sheet_words::{ListOut, Out, SheetRequest};
use std::alloc::Global;

/// Warns of a text that couldn't be put by its line with the reason that the desk knows. Where that finds no memory it warns by the
/// line that is there, which has none.
fn warn_of<D: Reasons>(
    alloc: Global,
    request: &SheetRequest,
    found: &PutFault<'_, SheetFault>,
    desk: &mut D,
)
    requires { found.now.line.now ≡ fault_line (Some (named_seen request.now)) Told.Nothing None found.now.fault }
    ensures { IsWarnedWith (D.reason desk.old) (λ reason. fault_line (Some (named_seen request.now)) Told.Nothing reason found.now.fault) (D.state desk.old) (D.state desk.new) }
{
    let reason = desk.last_reason();
    match line_of(alloc, request, &Told::Nothing, reason, &found.fault) {
        Ok(line) => warn(line.as_str(), desk),
        Err(_) => warn(found.line, desk),
    }
}

/// Puts a text of a request where it goes, and tells why it couldn't, of which it warns by a line.
fn put_asked<D: Reasons>(
    alloc: Global,
    request: &SheetRequest,
    way: Way<'_>,
    bytes: &[u8],
    line: &str,
    target: SheetTarget,
    desk: &mut D,
) -> Option<SheetFault>
    requires { line.now ≡ fault_line (Some (named_seen request.now)) Told.Nothing None (unwritten_of target) }
    ensures put { IsPutWith D.reason (named_seen request.now) (one_text (way_seen way.entry) (unwritten_of target) bytes.now) result (D.state desk.old) (D.state desk.new) }
    ensures unwarned { IfNone result (IsUnwarned (D.state desk.old) (D.state desk.new)) }
{
    match place_text(way, bytes, target, line, MEMORY_LINE, desk) {
        None => None,
        Some(found) => {
            warn_of(alloc, request, &found, desk);
            Some(found.fault)
        }
    }
}

/// The way of a sheet.
fn way_of(out: &Out) -> Way<'_>
    ensures { way_seen result ≡ way_of (goal_seen out.now) }
{
    match out {
        Out::Said => Way::Aloud,
        Out::Svg(name) => Way::Under(name),
        Out::Pdf(name) => Way::Under(name),
    }
}

/// The way of its list.
fn list_way(request: &SheetRequest) -> Way<'_>
    ensures { way_seen result ≡ list_way (named_seen request.now).list }
{
    match &request.list {
        None => Way::Nowhere,
        Some(ListOut::Said) => Way::Aloud,
        Some(ListOut::File(name)) => Way::Under(name),
    }
}

/// The way of its plain job.
fn plain_way(request: &SheetRequest) -> Way<'_>
    ensures { way_seen result ≡ list_way (named_seen request.now).plain }
{
    match &request.plain {
        None => Way::Nowhere,
        Some(ListOut::Said) => Way::Aloud,
        Some(ListOut::File(name)) => Way::Under(name),
    }
}

/// The way of what is told of all.
fn summary_way(request: &SheetRequest) -> Way<'_>
    ensures { way_seen result ≡ summary_way (named_seen request.now) }
{
    let plain = unless_said(plain_way(request), Way::Aloud);
    let list = unless_said(list_way(request), plain);
    unless_said(way_of(&request.out), list)
}

/// Says the summary of a request, or warns by it, and tells why it couldn't be said.
fn put_summary<D: Reasons>(
    alloc: Global,
    request: &SheetRequest,
    summary: &str,
    desk: &mut D,
) -> Option<SheetFault>
    ensures put { IsPutWith D.reason (named_seen request.now) (one_text (summary_way (named_seen request.now)) (SheetFault.Common (Fault.WriteFault Target.Summary)) summary.now) result
        (D.state desk.old) (D.state desk.new) }
    ensures noted { (D.state desk.old).tells_warned ≡ true →
        IfNone result (Notes (summary_way (named_seen request.now)) summary.now (D.state desk.old).warned (D.state desk.new).warned) }
    ensures noted_whole { HearsAll (D.state desk.old) (D.state desk.new) →
        IfNone result (NotesWhole (summary_way (named_seen request.now)) summary.now (D.state desk.old).warned (D.state desk.new).warned) }
    ensures quiet { IfNone result (IsQuiet (summary_way (named_seen request.now)) (D.state desk.old).warn_faults (D.state desk.new).warn_faults) }
{
    let way = summary_way(request);
    match put_asked(
        alloc,
        request,
        way,
        summary.as_bytes(),
        SAID_LINE,
        SheetTarget::Summary,
        desk,
    ) {
        None => {
            note(way, summary, desk);
            None
        }
        Some(fault) => Some(fault),
    }
}

/// Puts the plain job and the summary of a request where they go, and tells why it couldn't.
fn put_plain<D: Reasons>(
    alloc: Global,
    request: &SheetRequest,
    texts: &Texts,
    desk: &mut D,
) -> Option<SheetFault>
    requires { string_bytes texts.now.unplain ≡ list_line (named_seen request.now).plain None }
    ensures put { IsPutWith D.reason (named_seen request.now) (texts_after_list (named_seen request.now) texts.now.plain.items (string_bytes texts.now.summary)) result
        (D.state desk.old) (D.state desk.new) }
    ensures noted { (D.state desk.old).tells_warned ≡ true →
        IfNone result (Notes (summary_way (named_seen request.now)) (string_bytes texts.now.summary) (D.state desk.old).warned (D.state desk.new).warned) }
    ensures noted_whole { HearsAll (D.state desk.old) (D.state desk.new) →
        IfNone result (NotesWhole (summary_way (named_seen request.now)) (string_bytes texts.now.summary) (D.state desk.old).warned (D.state desk.new).warned) }
    ensures quiet { IfNone result (IsQuiet (summary_way (named_seen request.now)) (D.state desk.old).warn_faults (D.state desk.new).warn_faults) }
{
    let way = plain_way(request);
    match put_asked(
        alloc,
        request,
        way,
        &texts.plain,
        texts.unplain.as_str(),
        SheetTarget::PlainJob,
        desk,
    ) {
        None => put_summary(alloc, request, texts.summary.as_str(), desk),
        Some(fault) => Some(fault),
    }
}

/// Puts the list, the plain job and the summary of a request where they go, and tells why it couldn't.
fn put_list<D: Reasons>(
    alloc: Global,
    request: &SheetRequest,
    texts: &Texts,
    desk: &mut D,
) -> Option<SheetFault>
    requires list { string_bytes texts.now.unlisted ≡ list_line (named_seen request.now).list None }
    requires plain { string_bytes texts.now.unplain ≡ list_line (named_seen request.now).plain None }
    ensures put { IsPutWith D.reason (named_seen request.now) (texts_after_sheet (named_seen request.now) texts.now.list.items texts.now.plain.items (string_bytes texts.now.summary)) result
        (D.state desk.old) (D.state desk.new) }
    ensures noted { (D.state desk.old).tells_warned ≡ true →
        IfNone result (Notes (summary_way (named_seen request.now)) (string_bytes texts.now.summary) (D.state desk.old).warned (D.state desk.new).warned) }
    ensures noted_whole { HearsAll (D.state desk.old) (D.state desk.new) →
        IfNone result (NotesWhole (summary_way (named_seen request.now)) (string_bytes texts.now.summary) (D.state desk.old).warned (D.state desk.new).warned) }
    ensures quiet { IfNone result (IsQuiet (summary_way (named_seen request.now)) (D.state desk.old).warn_faults (D.state desk.new).warn_faults) }
{
    let way = list_way(request);
    match put_asked(
        alloc,
        request,
        way,
        &texts.list,
        texts.unlisted.as_str(),
        SheetTarget::Listing,
        desk,
    ) {
        None => put_plain(alloc, request, texts, desk),
        Some(fault) => Some(fault),
    }
}

/// Puts the sheet, the list, the plain job and the summary of a request where they go, one after the other up to the first that can't be
/// written, and tells why it couldn't. A summary that isn't said is warned by; that it isn't heard is no fault.
pub(crate) fn put<D: Reasons>(
    alloc: Global,
    request: &SheetRequest,
    texts: &Texts,
    desk: &mut D,
) -> Option<SheetFault>
    requires sheet { string_bytes texts.now.unwritten ≡ write_line (named_seen request.now).out None }
    requires list { string_bytes texts.now.unlisted ≡ list_line (named_seen request.now).list None }
    requires plain { string_bytes texts.now.unplain ≡ list_line (named_seen request.now).plain None }
    ensures put { IsPutWith D.reason (named_seen request.now) (texts_for (named_seen request.now) texts.now.page.items texts.now.list.items texts.now.plain.items (string_bytes texts.now.summary)) result
        (D.state desk.old) (D.state desk.new) }
    ensures noted { (D.state desk.old).tells_warned ≡ true →
        IfNone result (Notes (summary_way (named_seen request.now)) (string_bytes texts.now.summary) (D.state desk.old).warned (D.state desk.new).warned) }
    ensures noted_whole { HearsAll (D.state desk.old) (D.state desk.new) →
        IfNone result (NotesWhole (summary_way (named_seen request.now)) (string_bytes texts.now.summary) (D.state desk.old).warned (D.state desk.new).warned) }
    ensures quiet { IfNone result (IsQuiet (summary_way (named_seen request.now)) (D.state desk.old).warn_faults (D.state desk.new).warn_faults) }
{
    let way = way_of(&request.out);
    match put_asked(
        alloc,
        request,
        way,
        &texts.page,
        texts.unwritten.as_str(),
        SheetTarget::Page,
        desk,
    ) {
        None => put_list(alloc, request, texts, desk),
        Some(fault) => Some(fault),
    }
}
