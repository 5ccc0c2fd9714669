// Keeps the files of a drawing, says its summary, and warns of a fault.
ghost use Rattle.std.specs.Prelude.{◌≡◌, true, map, None, Some, IfSome, IfNone, string_bytes};
ghost use Rattle.draw_core.specs.inner.Warned.{Warns, WarnsWhole};
ghost use Rattle.draw_core.specs.inner.Made.{file_seen};
ghost use Rattle.draw_core.specs.Outputs.{LeavesAll};
ghost use Rattle.draw_core.specs.inner.Faults.{IsWriteOutcome};
ghost use Rattle.draw_core.specs.inner.Kept.{LeavesOne, OnlyFiles, TargetsInOrder, IsOfSaying};
ghost use Rattle.draw_core.specs.Summary.{Says};
ghost use Rattle.put_texts.specs.Desks.{HearsAll, OnlyFilesAndWarned, OnlySaidAndWarned, OnlyWrites};
ghost use Rattle.put_texts.specs.Faults.{CountsWrites, HasNoWriteFault};

use crate::lines::MEMORY_LINE;
use crate::outputs::Output;
use crate::summary::Summary;
use desk::{Desk, DeskFault};
use part_input::{Fault, Target};
use put_texts::warn;

/// Keeps a file, and tells why it couldn't, of which it warns.
fn keep_output<D: Desk>(output: &Output, desk: &mut D) -> Option<Fault>
    ensures fault { IfSome result IsWriteOutcome }
    ensures files { (D.state desk.old).tells ≡ true →
        LeavesOne result (D.state desk.old).files (D.state desk.new).files output.now }
    ensures writes { CountsWrites result (D.state desk.old).write_faults (D.state desk.new).write_faults }
    ensures kept { IfNone result (OnlyFiles (D.state desk.old) (D.state desk.new)) }
    ensures steady { (D.state desk.old).steady ≡ true → HasNoWriteFault result }
    ensures firm { (D.state desk.old).firm ≡ true → result ≡ Some Fault.Memory → ⊥ }
    ensures warned { (D.state desk.old).tells_warned ≡ true →
        Warns result (D.state desk.old).warned (D.state desk.new).warned }
    ensures whole { HearsAll (D.state desk.old) (D.state desk.new) →
        WarnsWhole result (D.state desk.old).warned (D.state desk.new).warned }
    ensures changes { OnlyFilesAndWarned (D.state desk.old) (D.state desk.new) }
{
    match desk.keep(output.name.as_str(), &output.bytes) {
        Ok(()) => None,
        Err(DeskFault::Failed) => {
            warn(output.line.as_str(), desk);
            Some(Fault::WriteFault(output.target))
        }
        Err(DeskFault::Memory(_)) => {
            warn(MEMORY_LINE, desk);
            Some(Fault::Memory)
        }
    }
}

/// Keeps the files of a drawing in order, up to the first that it can't keep, and tells why it couldn't.
pub(crate) fn keep_all<D: Desk>(outputs: &[Output], desk: &mut D) -> Option<Fault>
    requires { TargetsInOrder outputs.now }
    ensures fault { IfSome result IsWriteOutcome }
    ensures files { (D.state desk.old).tells ≡ true →
        LeavesAll result (D.state desk.old).files (D.state desk.new).files (map file_seen outputs.now) }
    ensures writes { CountsWrites result (D.state desk.old).write_faults (D.state desk.new).write_faults }
    ensures kept { IfNone result (OnlyFiles (D.state desk.old) (D.state desk.new)) }
    ensures steady { (D.state desk.old).steady ≡ true → HasNoWriteFault result }
    ensures firm { (D.state desk.old).firm ≡ true → result ≡ Some Fault.Memory → ⊥ }
    ensures warned { (D.state desk.old).tells_warned ≡ true →
        Warns result (D.state desk.old).warned (D.state desk.new).warned }
    ensures whole { HearsAll (D.state desk.old) (D.state desk.new) →
        WarnsWhole result (D.state desk.old).warned (D.state desk.new).warned }
    ensures changes { OnlyFilesAndWarned (D.state desk.old) (D.state desk.new) }
{
    for output in outputs {
        match keep_output(output, desk) {
            None => {}
            Some(fault) => return Some(fault),
        }
    }
    None
}

/// Says the summary of a drawing, and tells why it couldn't, of which it warns.
fn say_summary<D: Desk>(summary: &Summary, desk: &mut D) -> Option<Fault>
    ensures fault { IfSome result IsOfSaying }
    ensures said { (D.state desk.old).tells_said ≡ true →
        Says result (D.state desk.old).said (D.state desk.new).said (string_bytes summary.now.text) }
    ensures writes { CountsWrites result (D.state desk.old).write_faults (D.state desk.new).write_faults }
    ensures steady { (D.state desk.old).steady ≡ true → HasNoWriteFault result }
    ensures firm { (D.state desk.old).firm ≡ true → result ≡ Some Fault.Memory → ⊥ }
    ensures warned { (D.state desk.old).tells_warned ≡ true →
        Warns result (D.state desk.old).warned (D.state desk.new).warned }
    ensures whole { HearsAll (D.state desk.old) (D.state desk.new) →
        WarnsWhole result (D.state desk.old).warned (D.state desk.new).warned }
    ensures quiet { IfNone result ((D.state desk.new).warn_faults ≡ (D.state desk.old).warn_faults) }
    ensures changes { OnlySaidAndWarned (D.state desk.old) (D.state desk.new) }
{
    match desk.say(summary.text.as_bytes()) {
        Ok(()) => None,
        Err(DeskFault::Failed) => {
            warn(summary.line.as_str(), desk);
            Some(Fault::WriteFault(Target::Summary))
        }
        Err(DeskFault::Memory(_)) => {
            warn(MEMORY_LINE, desk);
            Some(Fault::Memory)
        }
    }
}

/// Keeps the files of a drawing in order and then says its summary, up to the first that fails, and tells why it did.
pub(crate) fn write_all<D: Desk>(
    outputs: &[Output],
    summary: &Summary,
    desk: &mut D,
) -> Option<Fault>
    requires { TargetsInOrder outputs.now }
    ensures fault { IfSome result IsWriteOutcome }
    ensures files { (D.state desk.old).tells ≡ true →
        LeavesAll result (D.state desk.old).files (D.state desk.new).files (map file_seen outputs.now) }
    ensures said { (D.state desk.old).tells_said ≡ true →
        Says result (D.state desk.old).said (D.state desk.new).said (string_bytes summary.now.text) }
    ensures writes { CountsWrites result (D.state desk.old).write_faults (D.state desk.new).write_faults }
    ensures steady { (D.state desk.old).steady ≡ true → HasNoWriteFault result }
    ensures firm { (D.state desk.old).firm ≡ true → result ≡ Some Fault.Memory → ⊥ }
    ensures warned { (D.state desk.old).tells_warned ≡ true →
        Warns result (D.state desk.old).warned (D.state desk.new).warned }
    ensures whole { HearsAll (D.state desk.old) (D.state desk.new) →
        WarnsWhole result (D.state desk.old).warned (D.state desk.new).warned }
    ensures quiet { IfNone result ((D.state desk.new).warn_faults ≡ (D.state desk.old).warn_faults) }
    ensures changes { OnlyWrites (D.state desk.old) (D.state desk.new) }
{
    match keep_all(outputs, desk) {
        None => say_summary(summary, desk),
        Some(fault) => Some(fault),
    }
}
