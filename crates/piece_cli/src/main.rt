//! Judges a piece list, or draws a detail of a view: `pieces check PART JOB LIST`, or `pieces detail PART JOB VIEW U1 V1 U2 V2 SCALE OUT`.
#![tactic(auto)]

use desk::Desk;
use detail_view::pieces;
use disk_desk::{DiskDesk, words_of};
use std::alloc::Global;
use std::process::ExitCode;
use std::rt::{Stderr, Stdout};

// The status of a run.
fn status_of<D: Desk>(alloc: Global, words: Option<Vec<String>>, desk: &mut D) -> u8 {
    match words {
        Some(words) => pieces(alloc, &words, desk).status,
        None => 9,
    }
}

fn main(rt: HostRuntime) -> ExitCode {
    let alloc = rt.alloc();
    let words = words_of(&rt);
    let (out, err) = (rt.stdout(), rt.stderr());
    let mut desk: DiskDesk<_, Stdout, Stderr> = DiskDesk::new(alloc, rt, out, err);
    ExitCode::from(status_of(alloc, words, &mut desk))
}
