// The top call: from the words and a desk to a sheet.
ghost use Rattle.std.specs.Prelude.{◌≡◌, true, Some, IfSome, IfNone};
ghost use Rattle.draw_words.specs.Seen.{texts};
ghost use Rattle.put_texts.specs.Noting.{IsQuiet};
ghost use Rattle.put_texts.specs.Runs.{IsRun};
ghost use Rattle.sheet_core.specs.Run.{sheet_run};
ghost use Rattle.sheet_core.specs.Writing.{IsQuietIfAsked, SpeaksIfTold, TellsAsked, Writes, WritesAsked, summary_way};
ghost use Rattle.sheet_input.specs.Laid.{IsLaidDrawing};
ghost use Rattle.sheet_words.specs.Names.{asked_by, sheet as of_sheet};
ghost use Rattle.sheet_words.specs.Seen.{named_seen};

use crate::end::{SheetOutcome, refuse};
use crate::lines::{HELP, VERSION};
use crate::put::put;
use crate::refusals::{MEMORY_LINE, SAID_LINE, USAGE_LINE};
use crate::texts::texts_of;
use crate::unread::unread_lines;
use desk_reasons::Reasons;
use draw_words::WordsError;
use part_input::Fault;
use put_texts::{end_by, ended, tell};
use sheet_input::{SheetFault, SheetTarget, take_sheet};
use sheet_words::{Asked, SheetRequest, read_words};
use std::alloc::Global;

/// Draws what was asked for, writes its sheet, its list and its plain job where they go, and tells of them.
fn draw_sheet<D: Reasons>(alloc: Global, request: SheetRequest, desk: &mut D) -> SheetOutcome
    ensures run { IsRun (sheet_run D.reason (Some (of_sheet (named_seen request)))) result.status result.fault result.made (D.state desk.old) (D.state desk.new) }
    ensures shows { IfSome result.made (λ made. IsLaidDrawing made.drawing made.wish made.shrunk) }
    ensures written { IfSome result.made (Writes (named_seen request) result.fault (D.state desk.old) (D.state desk.new)) }
    ensures unsaid { IfNone result.made ((D.state desk.new).said ≡ (D.state desk.old).said) }
    ensures quiet { IfNone result.fault (IsQuiet (summary_way (named_seen request)) (D.state desk.old).warn_faults (D.state desk.new).warn_faults) }
{
    let unread = match unread_lines(alloc, &request) {
        Ok(unread) => unread,
        Err(_) => return end_by(MEMORY_LINE, SheetFault::Common(Fault::Memory), desk),
    };
    let input = match take_sheet(alloc, &request, desk) {
        Ok(input) => input,
        Err(refusal) => return refuse(alloc, &request, &unread, refusal, desk),
    };
    let texts = match texts_of(alloc, &request, &input) {
        Ok(texts) => texts,
        Err(_) => return end_by(MEMORY_LINE, SheetFault::Common(Fault::Memory), desk),
    };
    let fault = put(alloc, &request, &texts, desk);
    ended(fault, Some(input))
}

/// Reads the job and the part that the words name, draws the job's views on their sheet, joins their strokes to paths, and writes the
/// page, as SVG or as PDF, under the name that the words give, or `sheet.svg`, or says it as SVG. Where the words ask for it, it also
/// writes the list of the strokes, and the job as one of version 2; each is kept or said. The job has any version; if none is named it is
/// the usual one. Its outputs aren't looked at. Hidden lines are drawn where the words, the view or the job say so. Words that ask for
/// help or for the version are answered by a text that is said. At the end it says a summary: a line with the paper, the scale, the
/// numbers of views, of visible and hidden paths and of hatch lines, and the number of decimals if the job left it to the program; and
/// one for each cut that isn't told as usual. If another text is said, it warns by the summary. Of a fault it warns once, by one line;
/// that of a file which can't be read or written says why, if the desk knows and the line finds memory.
///
/// The faults are looked for in this order: the words, those of `take_sheet` in their order, the writing of the sheet, of its list, of the
/// plain job, of the summary. Want of memory may be answered at any place; then each file is whole or as before. Time is that of `draw`,
/// and about linear in the strokes.
pub fn sheet<D: Reasons>(alloc: Global, words: &[String], desk: &mut D) -> SheetOutcome
    // It is a run of the steps that the words ask for, from the files at entry.
    ensures run { IsRun (sheet_run D.reason (asked_by (texts words.now))) result.status result.fault result.made (D.state desk.old) (D.state desk.new) }

    // Its drawing shows the part by the job, on the sheet of its layout.
    ensures shows { IfSome result.made (λ made. IsLaidDrawing made.drawing made.wish made.shrunk) }

    // The texts of one page that shows it are put where the words say, one after the other: the sheet, its list, the plain job, and the
    // summary.
    ensures written { IfSome result.made (WritesAsked (asked_by (texts words.now)) result.fault (D.state desk.old) (D.state desk.new)) }

    // Without a drawing nothing is said but what the words ask to be told.
    ensures told { (D.state desk.old).tells_said ≡ true →
        IfNone result.made (TellsAsked (asked_by (texts words.now)) result.fault (D.state desk.old).said (D.state desk.new).said) }
    ensures speaks { IfNone result.made (SpeaksIfTold (asked_by (texts words.now)) (D.state desk.old).said (D.state desk.new).said) }

    // Without a fault it warns by a summary that isn't said, and else not at all.
    ensures quiet { IfNone result.fault (IsQuietIfAsked (asked_by (texts words.now)) (D.state desk.old).warn_faults (D.state desk.new).warn_faults) }
{
    match read_words(alloc, words) {
        Ok(Asked::Help) => tell(HELP, SheetTarget::Page, SAID_LINE, MEMORY_LINE, desk),
        Ok(Asked::Version) => tell(VERSION, SheetTarget::Page, SAID_LINE, MEMORY_LINE, desk),
        Ok(Asked::Sheet(request)) => draw_sheet(alloc, request, desk),
        Err(WordsError::Usage) => end_by(USAGE_LINE, SheetFault::Common(Fault::Usage), desk),
        Err(WordsError::Memory(_)) => end_by(MEMORY_LINE, SheetFault::Common(Fault::Memory), desk),
    }
}
