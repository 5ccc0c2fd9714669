// Why the system refused a call, by the kind of its error.
ghost use Rattle.std.specs.Prelude.{◌≡◌, Some, IsErr, IsOk};

use desk_reasons::Reason;
use std::io;
use std::io::ErrorKind;

/// What an error of this kind says, if a reader of a line can use it.
pub(crate) fn reason_of(kind: ErrorKind) -> Option<Reason>
    ensures not_found { kind ≡ ErrorKind.NotFound → result ≡ Some Reason.NotFound }
    ensures denied { kind ≡ ErrorKind.PermissionDenied → result ≡ Some Reason.Denied }
    ensures folder { kind ≡ ErrorKind.IsADirectory → result ≡ Some Reason.Folder }
    ensures through_file { kind ≡ ErrorKind.NotADirectory → result ≡ Some Reason.ThroughFile }
    ensures long_name { kind ≡ ErrorKind.InvalidFilename → result ≡ Some Reason.LongName }
    ensures no_space { kind ≡ ErrorKind.StorageFull → result ≡ Some Reason.NoSpace }
    ensures quota { kind ≡ ErrorKind.QuotaExceeded → result ≡ Some Reason.Quota }
    ensures read_only { kind ≡ ErrorKind.ReadOnlyFilesystem → result ≡ Some Reason.ReadOnly }
    ensures memory { kind ≡ ErrorKind.OutOfMemory → result ≡ Some Reason.Memory }
{
    match kind {
        ErrorKind::NotFound => Some(Reason::NotFound),
        ErrorKind::PermissionDenied => Some(Reason::Denied),
        ErrorKind::IsADirectory => Some(Reason::Folder),
        ErrorKind::NotADirectory => Some(Reason::ThroughFile),
        ErrorKind::InvalidFilename => Some(Reason::LongName),
        ErrorKind::StorageFull => Some(Reason::NoSpace),
        ErrorKind::QuotaExceeded => Some(Reason::Quota),
        ErrorKind::ReadOnlyFilesystem => Some(Reason::ReadOnly),
        ErrorKind::OutOfMemory => Some(Reason::Memory),
        _ => None,
    }
}

/// The same answer, with the reason of the error.
pub(crate) fn known(done: io::Result<()>) -> Result<(), Option<Reason>>
    ensures done { IsOk done → IsOk result }
    ensures refused { IsErr done → IsErr result }
{
    match done {
        Ok(()) => Ok(()),
        Err(e) => Err(reason_of(e.kind())),
    }
}
