//! Draws one part: `draw PART [--job JOB] [--out OUT]`.
#![tactic(auto)]

use desk::Desk;
use disk_desk::{DiskDesk, without_memory, words_of};
use draw_core::{MEMORY_LINE, draw};
use plot_rack::{DxfPlotter, HpglPlotter, ListPlotter, Plotter};
use std::alloc::Global;
use std::process::ExitCode;
use std::rt::{Stderr, Stdout};

// The status of a run.
fn status_of<D: Desk>(
    alloc: Global,
    words: Option<Vec<String>>,
    desk: &mut D,
    extras: Vec<Box<dyn Plotter>>,
) -> u8 {
    match words {
        Some(words) => draw(alloc, &words, desk, extras).status,
        None => without_memory(MEMORY_LINE, desk),
    }
}

fn main(rt: HostRuntime) -> ExitCode {
    let alloc = rt.alloc();
    let words = words_of(&rt);
    let (out, err) = (rt.stdout(), rt.stderr());
    let mut desk: DiskDesk<_, Stdout, Stderr> = DiskDesk::new(alloc, rt, out, err);
    let mut extras: Vec<Box<dyn Plotter>> = Vec::new(alloc);
    let (Ok(list), Ok(hpgl), Ok(dxf)) = (
        Box::new(alloc, ListPlotter::new(alloc)),
        Box::new(alloc, HpglPlotter::new(alloc)),
        Box::new(alloc, DxfPlotter::new(alloc)),
    ) else {
        return ExitCode::from(without_memory(MEMORY_LINE, &mut desk));
    };
    if extras.push(list).is_err() || extras.push(hpgl).is_err() || extras.push(dxf).is_err() {
        return ExitCode::from(without_memory(MEMORY_LINE, &mut desk));
    }
    ExitCode::from(status_of(alloc, words, &mut desk, extras))
}

#[cfg(test)]
mod tests {
    use super::*;
    use desk::MemoryDesk;
    use std::test::Fail;

    #[test]
    fn the_run_gives_its_status(rt: HostRuntime) -> Result<(), Fail> {
        let alloc = rt.alloc();
        let mut desk = MemoryDesk::new(alloc, Vec::new(alloc), Vec::new(alloc));
        let mut words = Vec::new(alloc);
        assert_eq!(rt;
            status_of(alloc, Some(Vec::new(alloc)), &mut desk, Vec::new(alloc)),
            2
        );
        words.push(String::from_str(alloc, "missing")?)?;
        assert_eq!(rt;
            status_of(alloc, Some(words), &mut desk, Vec::new(alloc)),
            7
        );
        assert_eq!(rt; status_of(alloc, None, &mut desk, Vec::new(alloc)), 9);
        Ok(())
    }
}
