// What the programs' mains share: the words that a run begins with, and the end of one that found no memory before it began.
ghost use Rattle.std.specs.Prelude.{◌≡◌, Some, IfOk};
ghost use Rattle.desk.specs.Files.{OnlyWarns};

use desk::Desk;
use std::alloc::Global;
use std::rt::Env;
use std::{env, io};

// The words after the program's name.
fn words_after_name<R: Env + AllocGlobal>(rt: &R) -> io::Result<Vec<String>> {
    Ok(env::args(rt)?.skip(1).collect(rt.alloc())?)
}

/// These words. Where they couldn't be had, as where they aren't UTF-8, there are none; `None` where that is want of memory.
pub fn words_or_none(alloc: Global, words: io::Result<Vec<String>>) -> Option<Vec<String>>
    ensures { IfOk words (λ had. result ≡ Some had) }
{
    match words {
        Ok(words) => Some(words),
        Err(fault) if fault.kind() == io::ErrorKind::OutOfMemory => None,
        Err(_) => Some(Vec::new(alloc)),
    }
}

/// The words after the program's name, as `words_or_none` has them.
pub fn words_of<R: Env + AllocGlobal>(rt: &R) -> Option<Vec<String>> {
    words_or_none(rt.alloc(), words_after_name(rt))
}

/// Warns by this line, and gives the status of want of memory.
pub fn without_memory<D: Desk>(line: &str, desk: &mut D) -> u8
    ensures status { result ≡ 9 }
    ensures changes { OnlyWarns (D.state desk.old) (D.state desk.new) }
{
    let _unheard = desk.warn(line.as_bytes());
    9
}
