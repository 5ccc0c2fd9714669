// The top call: from the words and a desk to a mended part.
ghost use Rattle.std.specs.Prelude.{◌≡◌, true, Some, IfSome, IfNone};
ghost use Rattle.draw_words.specs.Seen.{texts};
ghost use Rattle.geometry.specs.Sound.{IsSound};
ghost use Rattle.mend_core.specs.Run.{mend_run};
ghost use Rattle.mend_core.specs.Seen.{made_seen};
ghost use Rattle.mend_core.specs.Writing.{IsQuietIfAsked, SpeaksIfTold, TellsAsked, Writes, WritesAsked, summary_way};
ghost use Rattle.mend_words.specs.Names.{asked_by, mend as of_mend};
ghost use Rattle.mend_words.specs.Seen.{named_seen};
ghost use Rattle.put_texts.specs.Noting.{IsQuiet};
ghost use Rattle.put_texts.specs.Runs.{IsRun};
ghost use Rattle.solid_mesh.specs.Solids.{solid_part};

use crate::end::{MendOutcome, refuse};
use crate::file_lines::file_lines;
use crate::lines::{HELP, MEMORY_LINE, SAID_LINE, USAGE_LINE, VERSION};
use crate::put::put;
use crate::take::take;
use crate::texts::texts_of;
use desk_reasons::Reasons;
use draw_words::WordsError;
use mend_words::{Asked, MendRequest, read_words};
use part_input::{Fault, Target};
use put_texts::{end_by, ended, tell};
use std::alloc::Global;

/// Mends the part that was named, writes it where it goes, and tells of it.
fn mend_part<D: Reasons>(alloc: Global, request: &MendRequest, desk: &mut D) -> MendOutcome
    ensures run { IsRun (mend_run D.reason (Some (of_mend (named_seen request.now)))) result.status result.fault result.made (D.state desk.old) (D.state desk.new) }
    ensures written { IfSome result.made (λ m. Writes (named_seen request.now) result.fault (D.state desk.old) (D.state desk.new) (made_seen m)) }
    ensures unsaid { IfNone result.made ((D.state desk.new).said ≡ (D.state desk.old).said) }
    ensures quiet { IfNone result.fault (IsQuiet (summary_way (named_seen request.now).out) (D.state desk.old).warn_faults (D.state desk.new).warn_faults) }
{
    let lines = match file_lines(alloc, request) {
        Ok(lines) => lines,
        Err(_) => return end_by(MEMORY_LINE, Fault::Memory, desk),
    };
    let mended = match take(alloc, request, desk) {
        Ok(mended) => mended,
        Err(refusal) => return refuse(alloc, request, &lines, refusal, desk),
    };
    let texts = match texts_of(alloc, request.decimals, &mended) {
        Ok(texts) => texts,
        Err(_) => return end_by(MEMORY_LINE, Fault::Memory, desk),
    };
    let fault = put(alloc, request, &lines, &texts, desk);
    ended(fault, Some(mended))
}

/// Reads the part that the words name, in millimetres, with their decimals, and writes it as OFF, under the name that the words give,
/// or `mended.off`, or says it: as it is where its surface is sound, and else without triangles that come in pairs on the same
/// corners, turned opposite, and with its slivers flipped, if that makes it sound. No flip moves a point by more than the limit
/// that the words give. Words that ask for help or for the version are answered by a text that is said. At the end it says a line: that
/// the part was sound already, or how many flips mended it and how far points moved at most, and, where some were taken out, how many
/// pairs, which that distance leaves out; where the part is said, it warns by that. Of a fault it warns once, by one line, with the part's
/// name, the place in its text and what helps; that of a file which can't be read or written says why, if the desk knows and the line
/// finds memory.
///
/// The faults are looked for in this order: the words, a sample's size, the part's bytes, its text, whether it has a triangle, whether
/// one is left without pairs, the surface after flips, the writing of the part, of the line. Want of memory may be answered at any
/// place; then the file is whole or as before. Nothing is written that isn't sound. Time is that of `draw`'s reading, of two checks and
/// of the flips.
pub fn mend<D: Reasons>(alloc: Global, words: &[String], desk: &mut D) -> MendOutcome
    // It is a run of the steps that the words ask for, from the files at entry.
    ensures run { IsRun (mend_run D.reason (asked_by (texts words.now))) result.status result.fault result.made (D.state desk.old) (D.state desk.new) }

    // What it makes is sound on every desk.
    ensures sound { IfSome result.made (λ m. IsSound (solid_part m.solid)) }

    // Its text, which reads as the very part, and as a sound one once that is welded, is put where the words say, and then the line that
    // tells of it.
    ensures written { IfSome result.made (λ m. WritesAsked (asked_by (texts words.now)) result.fault (D.state desk.old) (D.state desk.new) (made_seen m)) }

    // Without a part nothing is said but what the words ask to be told.
    ensures told { (D.state desk.old).tells_said ≡ true →
        IfNone result.made (TellsAsked (asked_by (texts words.now)) result.fault (D.state desk.old).said (D.state desk.new).said) }
    ensures speaks { IfNone result.made (SpeaksIfTold (asked_by (texts words.now)) (D.state desk.old).said (D.state desk.new).said) }

    // Without a fault it warns by a line that isn't said, and else not at all.
    ensures quiet { IfNone result.fault (IsQuietIfAsked (asked_by (texts words.now)) (D.state desk.old).warn_faults (D.state desk.new).warn_faults) }
{
    match read_words(alloc, words) {
        Ok(Asked::Help) => tell(HELP, Target::Out, SAID_LINE, MEMORY_LINE, desk),
        Ok(Asked::Version) => tell(VERSION, Target::Out, SAID_LINE, MEMORY_LINE, desk),
        Ok(Asked::Mend(request)) => mend_part(alloc, &request, desk),
        Err(WordsError::Usage) => end_by(USAGE_LINE, Fault::Usage, desk),
        Err(WordsError::Memory(_)) => end_by(MEMORY_LINE, Fault::Memory, desk),
    }
}
