// The ends of runs.
ghost use Rattle.std.specs.Prelude.{◌≡◌, ◌⊎◌, None, Some, IfSome};
ghost use Rattle.desk.specs.Files.{OnlyWarns};
ghost use Rattle.sheet_input.specs.Faults.{status_of};
ghost use Rattle.sheet_core.specs.inner.Faults.{IsOfReading};
ghost use Rattle.put_texts.specs.Reasoned.{IsWarnedWith};
ghost use Rattle.sheet_core.specs.Refusals.{fault_line};
ghost use Rattle.sheet_core.specs.Unread.{AreUnreadLines};
ghost use Rattle.sheet_words.specs.Seen.{named_seen};

use crate::refusals::{MEMORY_LINE, line_of};
use crate::unread::UnreadLines;
use desk_reasons::Reasons;
use part_input::Fault;
use put_texts::{RunEnd, end_by};
use sheet_input::{Refusal, SheetFault, SheetInput};
use sheet_words::SheetRequest;
use std::alloc::Global;

/// How a run ended: with a fault or none, and the drawing that it made, where there is one. That was written, unless the fault is one
/// of writing.
pub type SheetOutcome = RunEnd<SheetFault, SheetInput>;

/// Ends a run of a request with a fault, and warns of it, with its place where it has one, and with the reason that the desk knows where
/// a file couldn't be read. Where its line finds no memory, the fault is want of memory; the lines of faults of reading are there,
/// without a reason.
pub(crate) fn refuse<D: Reasons>(
    alloc: Global,
    request: &SheetRequest,
    unread: &UnreadLines,
    refusal: Refusal,
    desk: &mut D,
) -> SheetOutcome
    requires { AreUnreadLines (named_seen request.now) unread.now }
    ensures status { result.status ≡ status_of result.fault }
    ensures none { result.made ≡ None }
    ensures fault { (result.fault ≡ Some refusal.fault) ⊎ (result.fault ≡ Some (SheetFault.Common Fault.Memory)) }
    ensures told { IsOfReading refusal.fault → result.fault ≡ Some refusal.fault }
    ensures warned { IfSome result.fault (λ f.
        IsWarnedWith (D.reason desk.old) (λ reason. fault_line (Some (named_seen request.now)) refusal.told reason f) (D.state desk.old) (D.state desk.new)) }
    ensures changes { OnlyWarns (D.state desk.old) (D.state desk.new) }
{
    let Refusal { fault, told } = refusal;
    if let Ok(line) = line_of(alloc, request, &told, desk.last_reason(), &fault) {
        return end_by(line.as_str(), fault, desk);
    }
    if let SheetFault::Common(Fault::ReadFault(input)) = fault {
        let fault = SheetFault::Common(Fault::ReadFault(input));
        return end_by(unread.line(&input), fault, desk);
    }
    end_by(MEMORY_LINE, SheetFault::Common(Fault::Memory), desk)
}
