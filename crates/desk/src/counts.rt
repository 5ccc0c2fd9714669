// Counts of the faults of a desk.
ghost use Rattle.std.specs.Prelude.{◌≡◌, ◌≤◌};
ghost use Rattle.desk.specs.Memory.{next};

use crate::{DeskFault, Failed};

/// How many faults there were of reading, of keeping and saying, and of warning; up to `u64::MAX`, where a count stays.
#[derive(Clone, Copy)]
pub(crate) struct FaultCounts {
    pub(crate) read: u64,
    pub(crate) write: u64,
    pub(crate) warn: u64,
}

impl FaultCounts {
    /// None yet.
    pub(crate) fn none() -> FaultCounts
        ensures { result ≡ record { read = 0; write = 0; warn = 0 } }
    {
        FaultCounts {
            read: 0,
            write: 0,
            warn: 0,
        }
    }

    /// One of reading more.
    pub(crate) fn count_read(&mut self) -> Failed
        ensures counted { self.new ≡ record self.old { read = next self.old.read } }
        ensures never_falls { self.old.read ≤ self.new.read }
    {
        self.read = self.read.saturating_add(1);
        Failed
    }

    /// One of keeping or saying more.
    pub(crate) fn count_write(&mut self) -> DeskFault
        ensures failed { result ≡ DeskFault.Failed }
        ensures counted { self.new ≡ record self.old { write = next self.old.write } }
        ensures never_falls { self.old.write ≤ self.new.write }
    {
        self.write = self.write.saturating_add(1);
        DeskFault::Failed
    }

    /// One of warning more.
    pub(crate) fn count_warn(&mut self) -> DeskFault
        ensures failed { result ≡ DeskFault.Failed }
        ensures counted { self.new ≡ record self.old { warn = next self.old.warn } }
        ensures never_falls { self.old.warn ≤ self.new.warn }
    {
        self.warn = self.warn.saturating_add(1);
        DeskFault::Failed
    }
}
