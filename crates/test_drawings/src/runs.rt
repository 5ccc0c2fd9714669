// What runs need, words and desks, and the drawing of a run.
use dec_text::Name;
use desk::MemoryDesk;
use draw_core::{Drawing, draw};
use std::alloc::{AllocError, Global};
use std::test::Fail;

// The words of a line.
pub(crate) fn words_of(alloc: Global, text: &str) -> Result<Vec<String>, AllocError> {
    let mut words = Vec::new(alloc);
    for word in text.split_whitespace() {
        words.push(String::from_str(alloc, word)?)?;
    }
    Ok(words)
}

// A desk with the part under `p` and the job under `j`.
pub(crate) fn desk_of(alloc: Global, part: &str, job: &str) -> Result<MemoryDesk, Fail> {
    let mut files = Vec::new(alloc);
    files.push((Name::new(alloc, "p")?, part.as_bytes().to_vec(alloc)?))?;
    files.push((Name::new(alloc, "j")?, job.as_bytes().to_vec(alloc)?))?;
    Ok(MemoryDesk::new(alloc, files, Vec::new(alloc)))
}

// The drawing of a part by these words.
pub(crate) fn drawn(alloc: Global, words: &str, part: &str, job: &str) -> Result<Drawing, Fail> {
    let mut desk = desk_of(alloc, part, job)?;
    let words = words_of(alloc, words)?;
    let outcome = draw(alloc, &words, &mut desk, Vec::new(alloc));
    Ok(outcome.drawing.ok_or("no drawing")?)
}
