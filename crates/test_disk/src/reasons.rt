// Why the system refuses a call.
use crate::folders::{desk_of, folder, is_fetched, path};
use desk::{Desk, DeskFault, Failed};
use desk_reasons::{Reason, Reasons};
use std::fs;

// It fetches nothing under this name, for this reason.
fn is_unread<D: Reasons>(desk: &mut D, name: &str, why: Reason) -> bool {
    desk.fetch(name, 0, &mut [0u8; 3]) == Err(Failed) && desk.last_reason() == Some(why)
}

// It keeps nothing under this name, for this reason.
fn is_unkept<D: Reasons>(desk: &mut D, name: &str, why: Reason) -> bool {
    desk.keep(name, b"kept") == Err(DeskFault::Failed) && desk.last_reason() == Some(why)
}

#[test]
fn the_desk_knows_why_a_call_failed(rt: HostRuntime) {
    let alloc = rt.alloc();
    let Some(folder) = folder(&rt, "reasons") else {
        panic!(rt; "no folder");
    };
    let file = path(&rt, alloc, folder.as_str(), "file");
    let inner = path(&rt, alloc, file.as_str(), "inner");
    let mut desk = desk_of(rt);
    assert!(rt; desk.last_reason() == None);
    assert!(rt; is_unread(&mut desk, file.as_str(), Reason::NotFound));
    assert!(rt; is_unread(&mut desk, folder.as_str(), Reason::Folder));
    assert!(rt; is_unkept(&mut desk, folder.as_str(), Reason::Folder));
    assert!(rt; desk.keep(file.as_str(), b"kept bytes") == Ok(()));
    assert!(rt; is_unkept(&mut desk, inner.as_str(), Reason::ThroughFile));
    assert!(rt; is_fetched(alloc, &mut desk, file.as_str(), "kept bytes"));
    assert!(rt; is_unkept(&mut desk, file.as_str(), Reason::WasRead));
    assert!(rt; fs::remove_dir_all(&rt, folder.as_str()).is_ok());
}
