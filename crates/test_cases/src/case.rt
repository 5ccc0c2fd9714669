// A case: a run, and what must come of it.
use dec_text::Name;
use std::alloc::{AllocError, Global};

// The program that runs.
#[derive(Clone, Copy)]
pub(crate) enum Program {
    Draw,
    Sheet,
    // The judge of piece lists.
    Pieces,
    // The mender of parts.
    Mend,
}

// A run by its words, over these files, and what is told of its end. The desk fails some calls, which may leave a beginning, or it
// has rooms for what is said and warned, and slots.
#[derive(Drop)]
pub(crate) struct Case {
    pub(crate) name: String,
    pub(crate) program: Program,
    pub(crate) words: Vec<String>,
    pub(crate) files: Vec<(Name, Vec<u8>)>,
    pub(crate) fail: Vec<u64>,
    pub(crate) left: Option<u64>,
    pub(crate) rooms: Option<(u64, u64)>,
    pub(crate) slots: Vec<(Name, u64)>,
    pub(crate) status: u8,
    pub(crate) said: Vec<u8>,
    pub(crate) warned: Vec<u8>,
    pub(crate) kept: Vec<(Name, Vec<u8>)>,
    pub(crate) made: Vec<Name>,
    pub(crate) gone: Vec<Name>,
    pub(crate) beginnings: Option<Name>,
    pub(crate) answers: String,
    pub(crate) differs: String,
}

impl Case {
    // A case of which nothing is told yet.
    pub(crate) fn new(alloc: Global, name: &str) -> Result<Case, AllocError> {
        Ok(Case {
            name: String::from_str(alloc, name)?,
            program: Program::Draw,
            words: Vec::new(alloc),
            files: Vec::new(alloc),
            fail: Vec::new(alloc),
            left: None,
            rooms: None,
            slots: Vec::new(alloc),
            status: 0,
            said: Vec::new(alloc),
            warned: Vec::new(alloc),
            kept: Vec::new(alloc),
            made: Vec::new(alloc),
            gone: Vec::new(alloc),
            beginnings: None,
            answers: String::new(alloc),
            differs: String::new(alloc),
        })
    }

    // It tells what becomes of the file with this name.
    pub(crate) fn names(&self, name: &str) -> bool {
        let kept = self.kept.iter().any(|file| file.0.as_str() == name);
        let made = self.made.iter().any(|other| other.as_str() == name);
        kept || made || self.gone.iter().any(|other| other.as_str() == name)
    }

    // The bytes of the file that it gives under this name.
    pub(crate) fn given(&self, name: &str) -> Option<&[u8]> {
        for file in &self.files {
            if file.0.as_str() == name {
                return Some(file.1.as_slice());
            }
        }
        None
    }
}
