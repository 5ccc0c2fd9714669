// A file that is kept over another: its mode, links to it, and a second name.
use crate::folders::{desk_of, folder, has, is_fetched, path};
use desk::{Desk, DeskFault};
use std::fs::Permissions;
use std::os::unix::fs::{PermissionsExt, symlink};
use std::{fs, io};

// The mode of a file.
fn mode_of(rt: &HostRuntime, name: &str) -> io::Result<u32> {
    Ok(fs::metadata(rt, name)?.permissions().mode() & 0o777)
}

// It is a link to another file.
fn is_link(rt: &HostRuntime, name: &str) -> bool {
    match fs::symlink_metadata(rt, name) {
        Ok(found) => found.is_symlink(),
        Err(_) => false,
    }
}

// Makes the file of the first name, of the mode 640, and a link to it.
fn linked<D: Desk>(rt: &HostRuntime, desk: &mut D, file: &str, link: &str) -> bool {
    desk.keep(file, b"old") == Ok(())
        && fs::set_permissions(rt, file, Permissions::from_mode(0o640)).is_ok()
        && symlink(rt, "file", link).is_ok()
}

#[test]
fn a_new_file_takes_the_name(rt: HostRuntime) {
    let Some(folder) = folder(&rt, "names") else {
        panic!(rt; "no folder");
    };
    let file = path(&rt, rt.alloc(), folder.as_str(), "file");
    let link = path(&rt, rt.alloc(), folder.as_str(), "link");
    let left = path(&rt, rt.alloc(), folder.as_str(), "file.new0");
    let mut desk = desk_of(rt);
    assert!(rt; linked(&rt, &mut desk, file.as_str(), link.as_str()));
    // The old mode and the link stay, and nothing is left beside the file.
    assert!(rt; desk.keep(link.as_str(), b"through a link") == Ok(()));
    assert!(rt; is_link(&rt, link.as_str()));
    assert!(rt; matches!(&mode_of(&rt, file.as_str()), Ok(0o640)));
    assert!(rt; matches!(&fs::exists(&rt, left.as_str()), Ok(false)));
    assert!(rt; has(&rt, file.as_str(), "through a link"));
    assert!(rt; fs::remove_dir_all(&rt, folder.as_str()).is_ok());
}

// A file with two names keeps both, and under neither is it kept over once it was fetched.
#[test]
fn a_fetched_file_is_not_kept_over(rt: HostRuntime) {
    let Some(folder) = folder(&rt, "fetched") else {
        panic!(rt; "no folder");
    };
    let file = path(&rt, rt.alloc(), folder.as_str(), "file");
    let link = path(&rt, rt.alloc(), folder.as_str(), "link");
    let same = path(&rt, rt.alloc(), folder.as_str(), "same");
    let mut desk = desk_of(rt);
    assert!(rt; linked(&rt, &mut desk, file.as_str(), link.as_str()));
    assert!(rt; fs::hard_link(&rt, file.as_str(), same.as_str()).is_ok());
    assert!(rt; desk.keep(file.as_str(), b"both") == Ok(()));
    assert!(rt; is_fetched(rt.alloc(), &mut desk, same.as_str(), "both"));
    for name in [&file, &link, &same] {
        assert!(rt; desk.keep(name.as_str(), b"over") == Err(DeskFault::Failed));
    }
    assert!(rt; has(&rt, file.as_str(), "both"));
    assert!(rt; fs::remove_dir_all(&rt, folder.as_str()).is_ok());
}
