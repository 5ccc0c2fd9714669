// The ends of runs.
ghost use Rattle.std.specs.Prelude.{◌≡◌, ◌++◌, true, None, Some, IfNone};
ghost use Rattle.desk.specs.Files.{AppendsFront, OnlyWarns};
ghost use Rattle.put_texts.specs.Desks.{HearsAll, IsUnwarned, OnlySaidAndWarned};
ghost use Rattle.put_texts.specs.Order.{aloud, SaysAlone};
ghost use Rattle.put_texts.specs.Puts.{IsPut, one_text, told_by};

use crate::fault::RunFault;
use crate::put::{Way, put_text};
use crate::warning::warn;
use desk::Desk;

/// How a run ended: its status, with a fault or none, and what it made, where that is there.
#[derive(Drop)]
pub struct RunEnd<F, T> {
    pub status: u8,
    pub fault: Option<F>,
    pub made: Option<T>,
}

/// The end of a run, by its fault.
pub fn ended<F: RunFault, T: Drop>(fault: Option<F>, made: Option<T>) -> RunEnd<F, T>
    ensures status { result.status ≡ F.status_of result.fault }
    ensures fault { result.fault ≡ fault }
    ensures made { result.made ≡ made }
{
    RunEnd {
        status: F::end_status(&fault),
        fault,
        made,
    }
}

/// Ends a run that made nothing with a fault, and warns by this line.
pub fn end_by<F: RunFault, T: Drop, D: Desk>(line: &str, fault: F, desk: &mut D) -> RunEnd<F, T>
    ensures status { result.status ≡ F.status_of result.fault }
    ensures fault { result.fault ≡ Some fault }
    ensures none { result.made ≡ None }
    ensures warned { (D.state desk.old).tells_warned ≡ true →
        AppendsFront (D.state desk.old).warned (D.state desk.new).warned line.now }
    ensures whole { HearsAll (D.state desk.old) (D.state desk.new) →
        (D.state desk.new).warned ≡ (D.state desk.old).warned ++ line.now }
    ensures changes { OnlyWarns (D.state desk.old) (D.state desk.new) }
{
    warn(line, desk);
    ended(Some(fault), None)
}

/// Ends a run that says a text, and nothing else. Where that couldn't be said it warns by its line, and where memory was wanting by
/// the line of that.
pub fn tell<F: RunFault, T: Drop, D: Desk>(
    text: &str,
    target: F::Target,
    line: &str,
    memory: &str,
    desk: &mut D,
) -> RunEnd<F, T>
    ensures status { result.status ≡ F.status_of result.fault }
    ensures none { result.made ≡ None }
    ensures put { IsPut F.faults (told_by F.faults memory.now line.now) (one_text aloud (F.unwritten_of target) text.now) result.fault (D.state desk.old) (D.state desk.new) }
    ensures said { (D.state desk.old).tells_said ≡ true →
        SaysAlone F.faults result.fault text.now (D.state desk.old).said (D.state desk.new).said }
    ensures unwarned { IfNone result.fault (IsUnwarned (D.state desk.old) (D.state desk.new)) }
    ensures changes { OnlySaidAndWarned (D.state desk.old) (D.state desk.new) }
{
    let fault = put_text(Way::Aloud, text.as_bytes(), target, line, memory, desk);
    ended(fault, None)
}
