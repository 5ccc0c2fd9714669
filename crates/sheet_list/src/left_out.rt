// Which strokes aren't drawn on a sheet.
ghost use Rattle.std.specs.Prelude.{◌≡◌, ◌<◌, ◌^◌, OnOk, IfOk, reverse};
ghost use Rattle.sheet_list.specs.LeftOut.{joined, left_out};

use exact_frac::OutOfMemory;
use std::alloc::Global;

/// Strokes one after the other, by the numbers of the first and of the last.
#[derive(Clone, Copy, Debug)]
pub(crate) struct Run {
    pub first: usize,
    pub last: usize,
}

/// Puts one more stroke before runs, of which the last added is the nearest: it begins that run, or is one of its own.
fn put_before(runs: &mut Vec<Run>, number: usize) -> Result<(), OutOfMemory>
    requires { number < 2 ^ 63 }
    ensures { OnOk result (reverse runs.new.items ≡ joined number (reverse runs.old.items)) }
{
    let alone = Run {
        first: number,
        last: number,
    };
    match runs.pop() {
        None => runs.push(alone)?,
        Some(run) => {
            if run.first == number + 1 {
                runs.push(Run {
                    first: number,
                    last: run.last,
                })?;
            } else {
                runs.push(run)?;
                runs.push(alone)?;
            }
        }
    }
    Ok(())
}

/// The runs of strokes that aren't drawn, as long as they are and in their order. It goes over the strokes from the last to the first.
pub(crate) fn left_out(alloc: Global, drawn: &[bool]) -> Result<Vec<Run>, OutOfMemory>
    ensures { IfOk result (λ runs. runs.items ≡ left_out 0 drawn.now) }
{
    let mut runs = Vec::new(alloc);
    let mut number = drawn.len();
    while number > 0 {
        number -= 1;
        if !drawn[number] {
            put_before(&mut runs, number)?;
        }
    }
    runs.reverse();
    Ok(runs)
}
