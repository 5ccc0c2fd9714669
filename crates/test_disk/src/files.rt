// Files, a pipe, and texts that are said and warned.
use crate::folders::{desk_of, folder, is_fetched, path};
use desk::{Desk, DeskFault, Failed};
use disk_desk::DiskDesk;
use std::fs;
use std::io::{Write, pipe};
use std::os::fd::AsRawFd;
use std::test::Fail;

#[test]
fn a_kept_file_is_fetched(rt: HostRuntime) {
    let Some(folder) = folder(&rt, "files") else {
        panic!(rt; "no folder");
    };
    let file = path(&rt, rt.alloc(), folder.as_str(), "file");
    let mut desk = desk_of(rt);
    assert!(rt; desk.keep(file.as_str(), b"kept bytes") == Ok(()));
    assert!(rt; is_fetched(rt.alloc(), &mut desk, file.as_str(), "kept bytes"));
    // Once it is removed it can't be fetched.
    assert!(rt; fs::remove_file(&rt, file.as_str()).is_ok());
    assert!(rt; desk.fetch(file.as_str(), 0, &mut [0u8; 3]) == Err(Failed));
    assert!(rt; fs::remove_dir(&rt, folder.as_str()).is_ok());
}

#[test]
fn no_file_is_kept_in_a_folder_that_is_not_there(rt: HostRuntime) {
    let mut desk = desk_of(rt);
    let kept = desk.keep("/no such folder/file", b"kept");
    assert!(rt; kept == Err(DeskFault::Failed));
}

#[test]
fn texts_are_said_and_warned(rt: HostRuntime) {
    let alloc = rt.alloc();
    let (mut out, mut err) = (Vec::new(alloc), Vec::new(alloc));
    let mut desk = DiskDesk::new(alloc, rt, &mut out, &mut err);
    let (said, warned) = (desk.say(b"said"), desk.warn(b"warned"));
    drop(desk);
    assert!(rt; said == Ok(()) && warned == Ok(()));
    assert!(rt; out.as_slice() == b"said".as_slice());
    assert!(rt; err.as_slice() == b"warned".as_slice());
}

#[test]
fn a_pipe_is_fetched(rt: HostRuntime) -> Result<(), Fail> {
    let (reader, mut writer) = pipe(&rt)?;
    writer.write_all(b"piped bytes")?;
    drop(writer);
    let name = format!(in rt.alloc(); "/dev/fd/{}", reader.as_raw_fd())?;
    let mut desk = desk_of(rt);
    assert!(rt; is_fetched(rt.alloc(), &mut desk, name.as_str(), "piped bytes"));
    Ok(())
}
