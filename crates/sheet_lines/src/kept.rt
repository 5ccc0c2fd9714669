// Paths that are chosen by a list of yes and no.
ghost use Rattle.std.specs.Prelude.{◌≡◌, ◌++◌, IfOk, OnOk};
ghost use Rattle.sheet_lines.specs.Kept.{as_many, kept, without};

use exact_frac::OutOfMemory;
use std::alloc::Global;
use stroke_paths::Path;

/// What is so in the first list and not in the second.
pub(crate) fn without(
    alloc: Global,
    first: &[bool],
    second: &[bool],
) -> Result<Vec<bool>, OutOfMemory>
    ensures { IfOk result (λ left. left.items ≡ without first.now second.now) }
{
    let mut left = Vec::new(alloc);
    let mut rest = second;
    for is_first in first {
        match rest {
            [] => left.push(*is_first)?,
            [is_second, tail @ ..] => {
                left.push(*is_first && !*is_second)?;
                rest = tail;
            }
        }
    }
    Ok(left)
}

/// How often it is so.
pub(crate) fn as_many(flags: &[bool]) -> u64
    ensures { result ≡ as_many flags.now }
{
    let mut count = 0;
    for flag in flags {
        if *flag {
            count += 1;
        }
    }
    count
}

/// The paths of which it is so.
pub(crate) fn kept(
    alloc: Global,
    flags: &[bool],
    paths: Vec<Path>,
) -> Result<Vec<Path>, OutOfMemory>
    ensures { IfOk result (λ left. left.items ≡ kept flags.now paths.items) }
{
    let mut left = Vec::new(alloc);
    let mut rest = flags;
    for path in paths {
        match rest {
            [] => {}
            [flag, tail @ ..] => {
                if *flag {
                    left.push(path)?;
                }
                rest = tail;
            }
        }
    }
    Ok(left)
}
