// The objects of a PDF file, and the table of where each of them begins.
ghost use Rattle.std.specs.Prelude.{◌≡◌, [], ◌∷◌, ◌++◌, length, IfOk, OnOk, string_bytes};
ghost use Rattle.sheet_page.specs.Pdf.{object, header, entry, table, trailer};

use exact_frac::OutOfMemory;
use std::alloc::{AllocError, Global};

/// A file so far, and where each of its objects begins.
#[derive(Drop)]
pub(crate) struct Draft {
    bytes: Vec<u8>,
    offsets: Vec<usize>,
}

impl Draft {
    /// A file without objects.
    pub(crate) fn new(alloc: Global) -> Result<Draft, OutOfMemory>
        ensures bytes { IfOk result (λ draft. draft.bytes.items ≡ header) }
        ensures offsets { IfOk result (λ draft. draft.offsets.items ≡ []) }
    {
        let mut bytes = Vec::new(alloc);
        bytes.extend_from_slice("%PDF-1.4\n%".as_bytes())?;
        bytes.extend_from_slice(&[226, 227, 207, 211, b'\n'])?;
        Ok(Draft {
            bytes,
            offsets: Vec::new(alloc),
        })
    }

    /// Adds the object of this number.
    pub(crate) fn add(&mut self, alloc: Global, number: u8, body: &[u8]) -> Result<(), OutOfMemory>
        ensures bytes { OnOk result (self.new.bytes.items ≡ self.old.bytes.items ++ object number body.now) }
        ensures offsets { OnOk result (self.new.offsets.items ≡ self.old.offsets.items ++ length self.old.bytes.items ∷ []) }
    {
        self.offsets.push(self.bytes.len())?;
        let begin = format!(in alloc; "{number} 0 obj\n")?;
        self.bytes.extend_from_slice(begin.as_bytes())?;
        self.bytes.extend_from_slice(body)?;
        self.bytes.extend_from_slice("\nendobj\n".as_bytes())?;
        Ok(())
    }

    /// The whole file: the objects, the table of them, and the trailer.
    pub(crate) fn finish(self, alloc: Global) -> Result<Vec<u8>, OutOfMemory>
        ensures { IfOk result (λ text. text.items ≡ self.bytes.items ++ table self.offsets.items ++ trailer (length self.bytes.items)) }
    {
        let mut text = self.bytes;
        let end = trailer(alloc, text.len())?;
        add_table(alloc, &mut text, &self.offsets)?;
        text.extend_from_slice(end.as_bytes())?;
        Ok(text)
    }
}

/// Adds the table of objects that begin at these places.
fn add_table(alloc: Global, text: &mut Vec<u8>, offsets: &[usize]) -> Result<(), OutOfMemory>
    ensures { OnOk result (text.new.items ≡ text.old.items ++ table offsets.now) }
{
    text.extend_from_slice("xref\n0 7\n0000000000 65535 f \n".as_bytes())?;
    for offset in offsets {
        text.extend_from_slice(entry(alloc, *offset)?.as_bytes())?;
    }
    Ok(())
}

/// The line of an object in the table.
fn entry(alloc: Global, offset: usize) -> Result<String, AllocError>
    ensures { IfOk result (λ text. string_bytes text ≡ entry offset) }
{
    format!(in alloc; "{offset:010} 00000 n \n")
}

/// The trailer of a file whose table begins at this place.
fn trailer(alloc: Global, offset: usize) -> Result<String, AllocError>
    ensures { IfOk result (λ text. string_bytes text ≡ trailer offset) }
{
    format!(in alloc;
        "trailer\n<< /Size 7 /Root 1 0 R /Info 6 0 R >>\nstartxref\n{offset}\n%%EOF\n"
    )
}
