// The ends of runs.
ghost use Rattle.std.specs.Prelude.{◌≡◌, ◌⊎◌, None, Some, IfSome};
ghost use Rattle.desk.specs.Files.{OnlyWarns};
ghost use Rattle.mend_core.specs.Lines.{mend_line};
ghost use Rattle.mend_core.specs.inner.Faults.{IsOfReading};
ghost use Rattle.mend_core.specs.inner.FileLines.{AreFileLines};
ghost use Rattle.mend_words.specs.Seen.{named_seen};
ghost use Rattle.part_input.specs.Faults.{status_of};
ghost use Rattle.put_texts.specs.Reasoned.{IsWarnedWith};

use crate::file_lines::FileLines;
use crate::lines::MEMORY_LINE;
use crate::made::Mended;
use crate::refusal::Refusal;
use crate::refusals::line_of;
use desk_reasons::Reasons;
use mend_words::MendRequest;
use part_input::Fault;
use put_texts::{RunEnd, end_by};
use std::alloc::Global;

/// How a run ended: with a fault or none, and the part that it mended, where there is one. That was written, unless the fault is one
/// of writing.
pub type MendOutcome = RunEnd<Fault, Mended>;

/// Ends a run of a request with a fault, and warns of it, with what helps, and with the reason that the desk knows where the part couldn't
/// be read. Where its line finds no memory, the fault is want of memory; the line of a part that can't be read is there, without a reason.
pub(crate) fn refuse<D: Reasons>(
    alloc: Global,
    request: &MendRequest,
    lines: &FileLines,
    refusal: Refusal,
    desk: &mut D,
) -> MendOutcome
    requires { AreFileLines (named_seen request.now) lines.now }
    ensures status { result.status ≡ status_of result.fault }
    ensures none { result.made ≡ None }
    ensures fault { (result.fault ≡ Some refusal.fault) ⊎ (result.fault ≡ Some Fault.Memory) }
    ensures told { IsOfReading refusal.fault → result.fault ≡ Some refusal.fault }
    ensures warned { IfSome result.fault (λ f.
        IsWarnedWith (D.reason desk.old) (λ reason. mend_line (Some (named_seen request.now)) refusal.hint reason f) (D.state desk.old) (D.state desk.new)) }
    ensures changes { OnlyWarns (D.state desk.old) (D.state desk.new) }
{
    let Refusal { fault, hint } = refusal;
    if let Ok(line) = line_of(alloc, request, &hint, desk.last_reason(), &fault) {
        return end_by(line.as_str(), fault, desk);
    }
    if let Fault::ReadFault(input) = fault {
        return end_by(lines.unread.as_str(), Fault::ReadFault(input), desk);
    }
    end_by(MEMORY_LINE, Fault::Memory, desk)
}
