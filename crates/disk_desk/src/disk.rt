// The desk of real files, of the standard output and the standard error. It tells nothing of what they hold.
ghost use Rattle.std.specs.Prelude.{◌≡◌, ◌≤◌, length, IfErr, IfOk, IsErrOf};
ghost use Rattle.desk.specs.Files.{Rose};
ghost use Rattle.disk_desk.specs.Disk.{disk_state};

use crate::identity::Fetched;
use crate::reading::{Reading, read_at};
use crate::reasons::{known, reason_of};
use crate::writing::{Kept, keep_file};
use desk::{Desk, DeskFault, Failed};
use desk_reasons::{Reason, Reasons};
use exact_frac::OutOfMemory;
use smallvec::SmallVec;
use std::alloc::Global;
use std::io;
use std::io::Write;
use std::rt::Files;

/// Files of the system, and where to say and to warn. A call that the system refuses is a fault, for want of memory too. As long as
/// the desk lasts a file that was fetched isn't kept over, under whatever name: that is a fault of writing. What is kept under a
/// name of the standard output's file, as `/dev/stdout`, goes where the desk says. It knows why its last call failed.
#[derive(Drop)]
pub struct DiskDesk<R: Files + Drop, O: Write + Drop, E: Write + Drop> {
    alloc: Global,
    rt: R,
    out: O,
    err: E,
    reading: Option<Reading<R::File>>,
    fetched: Fetched,
    read_faults: u64,
    write_faults: u64,
    warn_faults: u64,
    reason: Option<Reason>,
}

impl<R: Files + Drop, O: Write + Drop, E: Write + Drop> DiskDesk<R, O, E> {
    /// A desk that says to `out` and warns to `err`.
    pub fn new(alloc: Global, rt: R, out: O, err: E) -> Self {
        DiskDesk {
            alloc,
            rt,
            out,
            err,
            reading: None,
            fetched: SmallVec::new(alloc),
            read_faults: 0,
            write_faults: 0,
            warn_faults: 0,
            reason: None,
        }
    }
}

// Writes all bytes at once.
fn write_out<W: Write>(out: &mut W, bytes: &[u8]) -> io::Result<()> {
    out.write_all(bytes)?;
    out.flush()
}

// What the system or the desk refuses is counted as a fault, and why is kept.
fn counted(
    done: Result<(), Option<Reason>>,
    faults: &mut u64,
    reason: &mut Option<Reason>,
) -> Result<(), DeskFault>
    ensures cause { IsErrOf result DeskFault.Failed → Rose faults.old faults.new }
    ensures no_cause { (IsErrOf result DeskFault.Failed → ⊥) → faults.new ≡ faults.old }
    ensures never_falls { faults.old ≤ faults.new }
    ensures never_memory { (none : OutOfMemory) → IsErrOf result (DeskFault.Memory none) → ⊥ }
    ensures reason { IfErr done (λ why. reason.new ≡ why) }
{
    match done {
        Ok(()) => Ok(()),
        Err(why) => {
            *faults = faults.saturating_add(1);
            *reason = why;
            Err(DeskFault::Failed)
        }
    }
}

impl<R: Files + Drop, O: Write + Drop, E: Write + Drop> Desk for DiskDesk<R, O, E> {
    ghost state = { λ desk. disk_state desk.read_faults desk.write_faults desk.warn_faults };

    ghost steady_tells = { λ desk h. h };

    fn fetch(&mut self, name: &str, at: u64, into: &mut [u8]) -> Result<usize, Failed> {
        let (reading, fetched) = (&mut self.reading, &mut self.fetched);
        match read_at(self.alloc, &self.rt, reading, fetched, name, at, into) {
            Ok(n) => Ok(n),
            Err(e) => {
                self.read_faults = self.read_faults.saturating_add(1);
                self.reason = reason_of(e.kind());
                Err(Failed)
            }
        }
    }

    fn keep(&mut self, name: &str, bytes: &[u8]) -> Result<(), DeskFault> {
        // Where the standard output was closed, a file that is still open may have its number, and `/dev/stdout` would name that
        // file. So it is closed first.
        self.reading = None;
        let done = match keep_file(self.alloc, &self.rt, &self.fetched, name, bytes) {
            Ok(Kept::Written) => Ok(()),
            Ok(Kept::Output) => known(write_out(&mut self.out, bytes)),
            Ok(Kept::WasRead) => Err(Some(Reason::WasRead)),
            Err(e) => Err(reason_of(e.kind())),
        };
        counted(done, &mut self.write_faults, &mut self.reason)
    }

    fn say(&mut self, bytes: &[u8]) -> Result<(), DeskFault> {
        let done = known(write_out(&mut self.out, bytes));
        counted(done, &mut self.write_faults, &mut self.reason)
    }

    fn warn(&mut self, bytes: &[u8]) -> Result<(), DeskFault> {
        let done = known(write_out(&mut self.err, bytes));
        counted(done, &mut self.warn_faults, &mut self.reason)
    }
}

impl<R: Files + Drop, O: Write + Drop, E: Write + Drop> Reasons for DiskDesk<R, O, E> {
    ghost reason = { λ desk. desk.reason };

    fn last_reason(&self) -> Option<Reason> {
        self.reason
    }
}
