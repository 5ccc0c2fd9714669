// The text of a page as PDF.
ghost use Rattle.std.specs.Prelude.{◌≡◌, length, IfOk, string_bytes};
ghost use Rattle.std.specs.List.{AllZip};
ghost use Rattle.sheet_page.specs.Pdf.{sheet_entry, before_content, stream, objects_of, offsets_of, StandsAt, pdf_of};
ghost use Rattle.sheet_page.specs.PdfContent.{content_of};

use crate::page::Page;
use crate::pdf_content::{content, points};
use crate::pdf_objects::Draft;
use crate::pdf_words::title_entry;
use exact_frac::OutOfMemory;
use std::alloc::{AllocError, Global};

/// The text of a page in PDF (version 1.4): one page of the sheet's size, uncompressed, with Helvetica for its texts. A character
/// that WinAnsiEncoding doesn't have is a question mark there; the title in the file's information has each character.
///
/// The time goes with the length of the text, and twice its memory is taken.
pub fn pdf(alloc: Global, page: &Page) -> Result<Vec<u8>, OutOfMemory>
    ensures value { IfOk result (λ text. text.items ≡ pdf_of page.now) }
    ensures offsets { IfOk result (λ text. AllZip (StandsAt text.items) (offsets_of (objects_of page.now)) (objects_of page.now)) }
{
    let mut draft = Draft::new(alloc)?;
    draft.add(alloc, 1, "<< /Type /Catalog /Pages 2 0 R >>".as_bytes())?;
    draft.add(
        alloc,
        2,
        "<< /Type /Pages /Kids [3 0 R] /Count 1 >>".as_bytes(),
    )?;
    let sheet = sheet_entry(alloc, page.width, page.height)?;
    draft.add(alloc, 3, sheet.as_bytes())?;
    draft.add(alloc, 4, &stream(alloc, page)?)?;
    draft.add(
        alloc,
        5,
        "<< /Type /Font /Subtype /Type1 /BaseFont /Helvetica /Encoding /WinAnsiEncoding >>".as_bytes(),
    )?;
    draft.add(alloc, 6, &title_entry(alloc, page.title.as_str())?)?;
    draft.finish(alloc)
}

/// The entry of a sheet of this size.
fn sheet_entry(alloc: Global, width: i64, height: i64) -> Result<String, AllocError>
    ensures { IfOk result (λ text. string_bytes text ≡ sheet_entry width height) }
{
    let (across, down) = (points(alloc, width)?, points(alloc, height)?);
    format!(in alloc;
        "<< /Type /Page /Parent 2 0 R /MediaBox [0 0 {across} {down}] /Contents 4 0 R \
         /Resources << /Font << /F1 5 0 R >> >> >>"
    )
}

/// The content of a page, with its length.
fn stream(alloc: Global, page: &Page) -> Result<Vec<u8>, OutOfMemory>
    ensures { IfOk result (λ text. text.items ≡ stream (content_of page.now)) }
{
    let content = content(alloc, page)?;
    let mut text = Vec::new(alloc);
    text.extend_from_slice(before_content(alloc, content.len())?.as_bytes())?;
    text.extend_from_slice(&content)?;
    text.extend_from_slice("\nendstream".as_bytes())?;
    Ok(text)
}

/// What stands before a content of this length.
fn before_content(alloc: Global, length: usize) -> Result<String, AllocError>
    ensures { IfOk result (λ text. string_bytes text ≡ before_content length) }
{
    format!(in alloc; "<< /Length {length} >>\nstream\n")
}
