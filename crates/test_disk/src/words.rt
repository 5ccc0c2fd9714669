// The words that a run begins with, where they can't be had.
use disk_desk::words_or_none;
use std::io;
use std::test::Fail;

#[test]
fn words_that_cannot_be_had_are_none(rt: HostRuntime) -> Result<(), Fail> {
    let alloc = rt.alloc();
    let not_text = words_or_none(alloc, Err(io::Error::from(io::ErrorKind::InvalidData)));
    assert_eq!(rt; not_text.map(|words| words.len()), Some(0));
    let no_memory = words_or_none(alloc, Err(io::Error::from(io::ErrorKind::OutOfMemory)));
    assert_eq!(rt; no_memory.map(|words| words.len()), None);
    Ok(())
}
