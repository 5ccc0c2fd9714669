// Which file of the system a name stands for.
use smallvec::SmallVec;
use std::alloc::AllocError;
use std::fs::Metadata;
use std::os::unix::fs::MetadataExt;

/// A regular file, by its device and its number there.
#[derive(Clone, Copy, Default, PartialEq, Eq)]
pub(crate) struct FileId {
    device: u64,
    number: u64,
}

/// The regular files that were fetched. The first four take no memory, which are more than a run of this project names.
pub(crate) type Fetched = SmallVec<FileId, 4>;

/// Which file it is.
pub(crate) fn id_of(metadata: &Metadata) -> FileId {
    FileId {
        device: metadata.dev(),
        number: metadata.ino(),
    }
}

/// Adds a regular file to those that were fetched.
pub(crate) fn add_fetched(fetched: &mut Fetched, metadata: &Metadata) -> Result<(), AllocError> {
    let id = id_of(metadata);
    if !metadata.is_file() || fetched.contains(&id) {
        return Ok(());
    }
    fetched.push(id)?;
    Ok(())
}
