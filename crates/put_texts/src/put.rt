// Puts a text where it goes, and warns where it can't.
ghost use Rattle.std.specs.Prelude.{◌≡◌, true, Some, IfSome, IfNone};
ghost use Rattle.desk.specs.Files.{OnlyKeeps, OnlySays, OnlyWarns};
ghost use Rattle.put_texts.specs.Desks.{HearsAll, IsUnwarned};
ghost use Rattle.part_input.specs.Causes.{unwritten};
ghost use Rattle.put_texts.specs.Faults.{CountsWritesOf, HasNoWriteFaultOf};
ghost use Rattle.put_texts.specs.Noting.{IsQuiet, Notes, NotesWhole, unless_said};
ghost use Rattle.put_texts.specs.Order.{IsFaultAt, aloud, under};
ghost use Rattle.put_texts.specs.Puts.{IsPlaced, IsPut, fault_put, one_text, told_by, way_seen};
ghost use Rattle.put_texts.specs.inner.Parts.{KeepsBy, SaysBy};

use crate::fault::RunFault;
use crate::warning::warn;
use dec_text::Name;
use desk::{Desk, DeskFault};

/// Where a text goes: nowhere, to the standard output, or into the file of a name.
#[derive(Clone, Copy)]
pub enum Way<'a> {
    Nowhere,
    Aloud,
    Under(&'a Name),
}

/// Why a text couldn't be put, and the line that tells it.
#[derive(Drop)]
pub struct PutFault<'a, F> {
    pub fault: F,
    pub line: &'a str,
}

/// Keeps a text, and tells why it couldn't: by the fault of writing it with its line, or by want of memory with the line of that.
fn keep_text<'a, F: RunFault, D: Desk>(
    name: &Name,
    bytes: &[u8],
    its: F,
    line: &'a str,
    memory: &'a str,
    desk: &mut D,
) -> Option<PutFault<'a, F>>
    requires { F.faults.cause its ≡ unwritten }
    ensures fault { IfSome (fault_put result) (IsFaultAt F.faults its) }
    ensures line { IfSome result (λ p. p.line.now ≡ told_by F.faults memory.now line.now p.fault) }
    ensures files { (D.state desk.old).tells ≡ true →
        KeepsBy F.faults (under name.now) bytes.now (fault_put result) (D.state desk.old).files (D.state desk.new).files }
    ensures writes { CountsWritesOf F.faults (fault_put result) (D.state desk.old).write_faults (D.state desk.new).write_faults }
    ensures steady { (D.state desk.old).steady ≡ true → HasNoWriteFaultOf F.faults (fault_put result) }
    ensures firm { (D.state desk.old).firm ≡ true → fault_put result ≡ Some F.faults.memory → ⊥ }
    ensures changes { OnlyKeeps (D.state desk.old) (D.state desk.new) }
{
    match desk.keep(name.as_str(), bytes) {
        Ok(()) => None,
        Err(DeskFault::Failed) => Some(PutFault { fault: its, line }),
        Err(DeskFault::Memory(_)) => Some(PutFault {
            fault: F::memory(),
            line: memory,
        }),
    }
}

/// Says a text, and tells why it couldn't: by the fault of writing it with its line, or by want of memory with the line of that.
fn say_text<'a, F: RunFault, D: Desk>(
    bytes: &[u8],
    its: F,
    line: &'a str,
    memory: &'a str,
    desk: &mut D,
) -> Option<PutFault<'a, F>>
    requires { F.faults.cause its ≡ unwritten }
    ensures fault { IfSome (fault_put result) (IsFaultAt F.faults its) }
    ensures line { IfSome result (λ p. p.line.now ≡ told_by F.faults memory.now line.now p.fault) }
    ensures said { (D.state desk.old).tells_said ≡ true →
        SaysBy F.faults aloud bytes.now (fault_put result) (D.state desk.old).said (D.state desk.new).said }
    ensures writes { CountsWritesOf F.faults (fault_put result) (D.state desk.old).write_faults (D.state desk.new).write_faults }
    ensures steady { (D.state desk.old).steady ≡ true → HasNoWriteFaultOf F.faults (fault_put result) }
    ensures firm { (D.state desk.old).firm ≡ true → fault_put result ≡ Some F.faults.memory → ⊥ }
    ensures changes { OnlySays (D.state desk.old) (D.state desk.new) }
{
    match desk.say(bytes) {
        Ok(()) => None,
        Err(DeskFault::Failed) => Some(PutFault { fault: its, line }),
        Err(DeskFault::Memory(_)) => Some(PutFault {
            fault: F::memory(),
            line: memory,
        }),
    }
}

/// Puts a text where it goes, and tells why it couldn't, without a warning: by the fault of writing it with its line, or by want of
/// memory with the line of that. Cost: one call of the desk.
pub fn place_text<'a, F: RunFault, D: Desk>(
    way: Way<'_>,
    bytes: &[u8],
    target: F::Target,
    line: &'a str,
    memory: &'a str,
    desk: &mut D,
) -> Option<PutFault<'a, F>>
    ensures placed { IsPlaced F.faults (one_text (way_seen way.entry) (F.unwritten_of target) bytes.now) (fault_put result) (D.state desk.old) (D.state desk.new) }
    ensures line { IfSome result (λ p. p.line.now ≡ told_by F.faults memory.now line.now p.fault) }
{
    match way {
        Way::Nowhere => None,
        Way::Aloud => say_text(bytes, F::unwritten(target), line, memory, desk),
        Way::Under(name) => keep_text(name, bytes, F::unwritten(target), line, memory, desk),
    }
}

/// Puts a text where it goes, and tells why it couldn't: by the fault of writing it, or by want of memory. Where it couldn't be written it warns by its line, and where memory was
/// wanting by the line of that. Cost: one call of the desk, and with a fault one more.
pub fn put_text<F: RunFault, D: Desk>(
    way: Way<'_>,
    bytes: &[u8],
    target: F::Target,
    line: &str,
    memory: &str,
    desk: &mut D,
) -> Option<F>
    ensures put { IsPut F.faults (told_by F.faults memory.now line.now) (one_text (way_seen way.entry) (F.unwritten_of target) bytes.now) result (D.state desk.old) (D.state desk.new) }
    ensures unwarned { IfNone result (IsUnwarned (D.state desk.old) (D.state desk.new)) }
{
    match place_text(way, bytes, target, line, memory, desk) {
        None => None,
        Some(found) => {
            warn(found.line, desk);
            Some(found.fault)
        }
    }
}

/// Another way, unless what goes the first one is said.
pub fn unless_said<'a>(first: Way<'_>, other: Way<'a>) -> Way<'a>
    ensures { way_seen result ≡ unless_said (way_seen first.entry) (way_seen other.entry) }
{
    match first {
        Way::Aloud => Way::Nowhere,
        Way::Nowhere | Way::Under(_) => other,
    }
}

/// Warns by a summary that isn't said. That it isn't heard is no fault.
pub fn note<D: Desk>(way: Way<'_>, summary: &str, desk: &mut D)
    ensures noted { (D.state desk.old).tells_warned ≡ true →
        Notes (way_seen way.entry) summary.now (D.state desk.old).warned (D.state desk.new).warned }
    ensures noted_whole { HearsAll (D.state desk.old) (D.state desk.new) →
        NotesWhole (way_seen way.entry) summary.now (D.state desk.old).warned (D.state desk.new).warned }
    ensures quiet { IsQuiet (way_seen way.entry) (D.state desk.old).warn_faults (D.state desk.new).warn_faults }
    ensures changes { OnlyWarns (D.state desk.old) (D.state desk.new) }
{
    match way {
        Way::Nowhere => warn(summary, desk),
        Way::Aloud | Way::Under(_) => {}
    }
}
