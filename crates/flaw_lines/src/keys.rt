// The keys of a job of version 3 as they are written, and the values that each may have.
ghost use Rattle.std.specs.Prelude.{◌≡◌, IfOk, string_bytes};
ghost use Rattle.flaw_lines.specs.KeyTexts.{key_name, title_values, allowed_values, unquote_text, wrong_value_text};

use sheet_job::SheetKey;
use std::alloc::{AllocError, Global};

/// A key as it is written.
pub(crate) fn key_name(key: SheetKey) -> &'static str
    ensures { result.now ≡ key_name key }
{
    match key {
        SheetKey::Version => "version",
        SheetKey::Title | SheetKey::CutTitle => "title",
        SheetKey::Unit => "unit",
        SheetKey::Decimals => "decimals",
        SheetKey::Sheet => "sheet",
        SheetKey::Layout => "layout",
        SheetKey::Angle => "angle",
        SheetKey::Scale => "scale",
        SheetKey::Crease => "crease",
        SheetKey::Hidden | SheetKey::HiddenHere => "hidden",
        SheetKey::Number => "number",
        SheetKey::Kind => "type",
        SheetKey::Material => "material",
        SheetKey::Author => "author",
        SheetKey::Approved => "approved",
        SheetKey::Date => "date",
        SheetKey::Revision => "revision",
        SheetKey::Company => "company",
        SheetKey::Tolerances => "tolerances",
        SheetKey::Note => "note",
        SheetKey::Name => "name",
        SheetKey::Toward => "toward",
        SheetKey::Cut => "cut",
        SheetKey::At => "at",
        SheetKey::From => "from",
    }
}

/// What is allowed for a title and for each text of the title block.
fn title_values() -> &'static str
    ensures { result.now ≡ title_values }
{
    "a text of at most 120 bytes, without bytes below 32, the byte 127, U+FFFE and U+FFFF"
}

/// What is allowed for a key.
fn allowed_values(key: SheetKey) -> &'static str
    ensures { result.now ≡ allowed_values key }
{
    match key {
        SheetKey::Version => "3",
        SheetKey::Unit => "\"mm\" or \"inch\"",
        SheetKey::Decimals => "\"fit\", or 0 to 6",
        SheetKey::Sheet => "\"A0\", \"A1\", \"A2\", \"A3\", \"A4\" or \"fit\"",
        SheetKey::Layout => "\"landscape\" or \"portrait\"",
        SheetKey::Angle => "\"first\" or \"third\"",
        SheetKey::Scale => {
            "one of \"50:1\", \"20:1\", \"10:1\", \"5:1\", \"2:1\", \"1:1\", \"1:2\", \"1:5\", \"1:10\", \"1:20\", \"1:50\", \"1:100\", or \"fit\""
        }
        SheetKey::Crease => "\"fine\", \"normal\" or \"coarse\"",
        SheetKey::Hidden => "\"all\", \"plain\" or \"none\"",
        SheetKey::Name => "\"front\", \"back\", \"left\", \"right\", \"above\" or \"below\"",
        SheetKey::Toward => "a list of three whole numbers from -9 to 9, not all 0, as [1, -1, 1]",
        SheetKey::Cut => "\"x\", \"y\" or \"z\"",
        SheetKey::At => "a number in the job's unit, millimetres or inches, as 22.5",
        SheetKey::From => "\"high\" or \"low\"",
        SheetKey::HiddenHere => "true or false",
        _ => title_values(),
    }
}

/// What is said more of a text that the key may have without its quotes.
fn unquote_text(quoted: bool) -> &'static str
    ensures { result.now ≡ unquote_text quoted }
{
    if quoted { "; leave the quotes out" } else { "" }
}

/// A value that its key doesn't have.
pub(crate) fn wrong_value_text(
    alloc: Global,
    key: SheetKey,
    quoted: bool,
) -> Result<String, AllocError>
    ensures { IfOk result (λ text. string_bytes text ≡ wrong_value_text key quoted) }
{
    let (name, allowed, unquote) = (key_name(key), allowed_values(key), unquote_text(quoted));
    format!(in alloc; "wrong {name}: {allowed}{unquote}")
}
