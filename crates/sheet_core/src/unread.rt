// The lines of files that can't be read, without a reason, made before anything is.
ghost use Rattle.std.specs.Prelude.{◌≡◌, IfOk};
ghost use Rattle.sheet_core.specs.Unread.{AreUnreadLines, unread_line};
ghost use Rattle.sheet_words.specs.Seen.{named_seen};

use crate::refusals::unread;
use part_input::Input;
use sheet_words::SheetRequest;
use std::alloc::{AllocError, Global};

/// The line of a job that can't be read, and that of such a part.
#[derive(Drop)]
pub struct UnreadLines {
    pub job: String,
    pub part: String,
}

impl UnreadLines {
    /// The line of this file.
    pub fn line(&self, input: &Input) -> &str
        ensures { result.now ≡ unread_line self.now input.now }
    {
        match input {
            Input::Job => self.job.as_str(),
            Input::Part => self.part.as_str(),
        }
    }
}

/// The lines of the files of a request. A run that has them before it reads can tell a fault of reading whatever memory is left.
pub fn unread_lines(alloc: Global, request: &SheetRequest) -> Result<UnreadLines, AllocError>
    ensures { IfOk result (AreUnreadLines (named_seen request.now)) }
{
    let job = unread(alloc, request, None, &Input::Job)?;
    let part = unread(alloc, request, None, &Input::Part)?;
    Ok(UnreadLines { job, part })
}
