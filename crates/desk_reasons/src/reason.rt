// Why the system refused a call, and how a line says it.
ghost use Rattle.std.specs.Prelude.{◌≡◌};
ghost use Rattle.desk_reasons.specs.ReasonTexts.{reason_text};

/// Why the system refused a call.
#[derive(Clone, Copy, Debug, PartialEq, Eq)]
pub enum Reason {
    /// There is no such file, or no such folder on the way to it.
    NotFound,
    Denied,
    /// The name is that of a folder.
    Folder,
    /// The name goes on behind that of a file.
    ThroughFile,
    LongName,
    NoSpace,
    Quota,
    ReadOnly,
    /// A file that the run has read isn't written over.
    WasRead,
    Memory,
}

/// What a line says of it, after what failed; nothing if it isn't known.
pub fn reason_text(reason: Option<Reason>) -> &'static str
    ensures { result.now ≡ reason_text reason }
{
    match reason {
        None => "",
        Some(Reason::NotFound) => ": no such file or folder",
        Some(Reason::Denied) => ": permission denied",
        Some(Reason::Folder) => ": it is a folder",
        Some(Reason::ThroughFile) => ": its path goes through a file",
        Some(Reason::LongName) => ": the name is too long",
        Some(Reason::NoSpace) => ": no space left on the disk",
        Some(Reason::Quota) => ": the disk quota is used up",
        Some(Reason::ReadOnly) => ": the disk can only be read",
        Some(Reason::WasRead) => ": it is the part or the job itself",
        Some(Reason::Memory) => ": out of memory",
    }
}
