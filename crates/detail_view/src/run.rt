// The top call: from the words and a desk to a verdict or a detail.
ghost use Rattle.std.specs.Prelude.{◌≡◌, true, Some, IfSome, is_some};
ghost use Rattle.desk.specs.Files.{OnlyReads};
ghost use Rattle.draw_words.specs.Seen.{texts};
ghost use Rattle.detail_view.specs.Drawn.{pieces_told, HasDetail, KeepsPage};
ghost use Rattle.detail_view.specs.Faults.{status_of};
ghost use Rattle.detail_view.specs.Run.{HasVerdict, IsVerdictOn, SaysAsked, IsRefusal, OnlyAsked, pieces_task};
ghost use Rattle.detail_view.specs.Seen.{asked_seen};
ghost use Rattle.detail_view.specs.Taken.{IsVerdictTaken, ArePiecesTaken, IsOfTexts, HasOutcome};
ghost use Rattle.detail_view.specs.Words.{asked_by};
ghost use Rattle.put_texts.specs.Runs.{IsAnswer};

use crate::check::{check, ended};
use crate::detail::detail;
use crate::fault::{PiecesFault, PiecesOutcome};
use crate::words::{Words, read_words};
use desk::Desk;
use draw_words::WordsError;
use std::alloc::Global;

/// Does what the words ask for.
fn run<D: Desk>(alloc: Global, words: &Words, desk: &mut D) -> PiecesOutcome
    ensures run { IsAnswer (pieces_task (Some (asked_seen words.now))) result.fault (D.state desk.old) (D.state desk.new) }
    ensures status { result.status ≡ status_of result.fault result.verdict }
    ensures shown { HasVerdict (Some (asked_seen words.now)) result.fault (is_some result.verdict) }
    ensures verdict { (D.state desk.old).tells ≡ true →
        IfSome result.verdict (IsVerdictOn (Some (asked_seen words.now)) (D.state desk.old).files) }
    ensures said { (D.state desk.old).tells_said ≡ true →
        SaysAsked (D.state desk.old).tells (Some (asked_seen words.now)) (D.state desk.old).files result.fault result.verdict (D.state desk.old).said (D.state desk.new).said }
    ensures drawn { HasDetail (Some (asked_seen words.now)) result.fault (is_some result.detail) }
    ensures files { (D.state desk.old).tells ≡ true →
        KeepsPage (Some (asked_seen words.now)) result.fault (pieces_told result.detail) (D.state desk.old).files (D.state desk.new).files }
    ensures judged { IfSome result.verdict (IsVerdictTaken D.fetches D.state (Some (asked_seen words.now)) desk.old desk.new) }
    ensures taken { IfSome (pieces_told result.detail) (ArePiecesTaken D.fetches D.state (Some (asked_seen words.now)) desk.old desk.new) }
    ensures refused { IfSome result.fault (λ e. IsRefusal e → OnlyReads (D.state desk.old) (D.state desk.new)) }
    ensures changes { OnlyAsked (Some (asked_seen words.now)) (D.state desk.old) (D.state desk.new) }
{
    match words {
        Words::Check(words) => check(alloc, words, desk),
        Words::Detail(words) => detail(alloc, words, desk),
    }
}

/// Judges the list of pieces that the words name, by their part and job, and says the verdict in a line; or keeps the page of what
/// of a view stands in a window. The faults are looked for in this order: the words, the job's bytes and its text, the view's number,
/// the part's bytes, text and surface, the list's bytes and text, the writing. Want of memory may be answered at any place. Nothing is warned.
pub fn pieces<D: Desk>(alloc: Global, words: &[String], desk: &mut D) -> PiecesOutcome
    // It answers to the steps that the words ask for, from the files at entry.
    ensures run { IsAnswer (pieces_task (asked_by (texts words.now))) result.fault (D.state desk.old) (D.state desk.new) }
    ensures status { result.status ≡ status_of result.fault result.verdict }

    // A check has a verdict and a detail has pieces, as the fault leaves them.
    ensures given { HasOutcome (asked_by (texts words.now)) result.fault (is_some result.verdict) (is_some result.detail) }

    // The verdict is that on the list, for the part by the job, from the texts at entry, and its line is said.
    ensures verdict { (D.state desk.old).tells ≡ true →
        IfSome result.verdict (IsVerdictOn (asked_by (texts words.now)) (D.state desk.old).files) }
    ensures said { (D.state desk.old).tells_said ≡ true →
        SaysAsked (D.state desk.old).tells (asked_by (texts words.now)) (D.state desk.old).files result.fault result.verdict (D.state desk.old).said (D.state desk.new).said }

    // The detail is that of the job's view in the window, from the texts at entry, and its page is kept.
    ensures files { (D.state desk.old).tells ≡ true →
        KeepsPage (asked_by (texts words.now)) result.fault (pieces_told result.detail) (D.state desk.old).files (D.state desk.new).files }

    // By the desk's `fetches` both are those of one text of the job, one of the part and one of the list, each fetched once.
    ensures taken { IsOfTexts D.fetches D.state (asked_by (texts words.now)) desk.old desk.new result.verdict (pieces_told result.detail) }

    // A refusal leaves all but the count of the faults of reading. A check keeps nothing, a detail says nothing, and neither warns.
    ensures refused { IfSome result.fault (λ e. IsRefusal e → OnlyReads (D.state desk.old) (D.state desk.new)) }
    ensures changes { OnlyAsked (asked_by (texts words.now)) (D.state desk.old) (D.state desk.new) }
{
    match read_words(alloc, words) {
        Ok(words) => run(alloc, &words, desk),
        Err(WordsError::Usage) => ended(PiecesFault::Usage),
        Err(WordsError::Memory(_)) => ended(PiecesFault::Memory),
    }
}
