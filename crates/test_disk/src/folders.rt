// Folders and desks for tests.
use desk::Desk;
use disk_desk::DiskDesk;
use std::alloc::Global;
use std::process::Abort;
use std::{env, fs, process};

/// A desk that says and warns to texts of its own.
pub(crate) fn desk_of(rt: HostRuntime) -> DiskDesk<HostRuntime, Vec<u8>, Vec<u8>> {
    let alloc = rt.alloc();
    DiskDesk::new(alloc, rt, Vec::new(alloc), Vec::new(alloc))
}

/// Makes a folder that this process alone has.
pub(crate) fn folder(rt: &HostRuntime, name: &str) -> Option<String> {
    let path = env::temp_dir(rt).ok()?;
    let above = path.as_path().to_str()?;
    let number = process::id(rt.process());
    let folder = format!(in rt.alloc(); "{above}/draw_{name}_{number}").ok()?;
    fs::create_dir(rt, folder.as_str()).ok()?;
    Some(folder)
}

/// The path of a name in a folder.
pub(crate) fn path(rt: &impl Abort, alloc: Global, folder: &str, name: &str) -> String {
    match format!(in alloc; "{folder}/{name}") {
        Ok(path) => path,
        Err(_) => panic!(rt; "no memory"),
    }
}

/// The file has this text.
pub(crate) fn has(rt: &HostRuntime, name: &str, text: &str) -> bool {
    match fs::read(rt, name) {
        Ok(bytes) => bytes.as_slice() == text.as_bytes(),
        Err(_) => false,
    }
}

/// The desk fetches this text, three bytes at a time.
pub(crate) fn is_fetched<D: Desk>(alloc: Global, desk: &mut D, name: &str, text: &str) -> bool {
    let mut bytes = Vec::new(alloc);
    for _ in 0..5 {
        let mut block = [0u8; 3];
        let Ok(n) = desk.fetch(name, bytes.len() as u64, &mut block) else {
            return false;
        };
        if bytes.extend_from_slice(&block[..n]).is_err() {
            return false;
        }
    }
    bytes.as_slice() == text.as_bytes()
}
