// The lines of files that can't be read or written, without a reason, made before anything is.
ghost use Rattle.std.specs.Prelude.{IfOk};
ghost use Rattle.mend_core.specs.inner.FileLines.{AreFileLines};
ghost use Rattle.mend_words.specs.Seen.{named_seen};

use crate::refusals::line_of;
use mend_words::MendRequest;
use part_input::{Fault, Input, Target};
use part_lines::PartHint;
use std::alloc::{AllocError, Global};

/// The line of a part that can't be read, and that of one that can't be written.
#[derive(Drop)]
pub(crate) struct FileLines {
    pub(crate) unread: String,
    pub(crate) unwritten: String,
}

/// The lines of the files of a request. A run that has them before it reads can tell a fault of a file whatever memory is left.
pub(crate) fn file_lines(alloc: Global, request: &MendRequest) -> Result<FileLines, AllocError>
    ensures { IfOk result (AreFileLines (named_seen request.now)) }
{
    let none = PartHint::Nothing;
    let unread = line_of(alloc, request, &none, None, &Fault::ReadFault(Input::Part))?;
    let unwritten = line_of(alloc, request, &none, None, &Fault::WriteFault(Target::Out))?;
    Ok(FileLines { unread, unwritten })
}
