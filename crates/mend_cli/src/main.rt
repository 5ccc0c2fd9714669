//! Mends one part whose surface has slivers: `mend PART [--out OUT] [--decimals K] [--limit N]`.
#![tactic(auto)]

use desk_reasons::Reasons;
use disk_desk::{DiskDesk, without_memory, words_of};
use mend_core::{MEMORY_LINE, mend};
use std::alloc::Global;
use std::process::ExitCode;
use std::rt::{Stderr, Stdout};

// The status of a run.
fn status_of<D: Reasons>(alloc: Global, words: Option<Vec<String>>, desk: &mut D) -> u8 {
    match words {
        Some(words) => mend(alloc, &words, desk).status,
        None => without_memory(MEMORY_LINE, desk),
    }
}

fn main(rt: HostRuntime) -> ExitCode {
    let alloc = rt.alloc();
    let words = words_of(&rt);
    let (out, err) = (rt.stdout(), rt.stderr());
    let mut desk: DiskDesk<_, Stdout, Stderr> = DiskDesk::new(alloc, rt, out, err);
    ExitCode::from(status_of(alloc, words, &mut desk))
}
