// Reading a piece list.
ghost use Rattle.std.specs.Prelude.{◌≡◌, ◌<◌, ◌≤◌, ◌^◌, length, List, Err, IfNone, IfOk, IfSome};
ghost use Rattle.std.specs.List.{AllZip};
ghost use Rattle.sheet_plan.specs.declared.sheet.Stroke.{Stroke};
ghost use Rattle.piece_verify.specs.ListLines.{IsEntryOf};
ghost use Rattle.piece_verify.specs.Lists.{IsList, IsFaultLine};

use crate::line::{Entry, read_entry, read_page};
use exact_frac::OutOfMemory;
use std::alloc::{AllocError, AllocFailed, Global};

/// What a list says of its strokes, in order. They are fewer than 2^32.
#[derive(Drop)]
pub struct PieceList {
    pub entries: Vec<Entry>,
    ghost few: { length entries.items < 2 ^ 32 },
}

/// Where a text ceases to be a list: the least n for which no list has its first n lines.
#[derive(Clone, Copy, PartialEq, Eq, Debug)]
pub struct ListFault {
    pub line: u32,
}

/// Why a text gives no list.
#[derive(Clone, Copy, PartialEq, Eq, Debug)]
pub enum ListError {
    /// It is none.
    List(ListFault),
    /// Memory ran out.
    Memory(OutOfMemory),
}

impl From<AllocError> for ListError {
    ghost use Rattle.piece_verify.specs.declared.list.ListError.TheVariants.{Memory};

    ghost from_gives = { λ _ e. e ≡ Memory (record {}) };

    fn from(_: AllocError) -> Self {
        ListError::Memory(OutOfMemory)
    }
}

impl<T: Drop> From<AllocFailed<T>> for ListError {
    ghost use Rattle.piece_verify.specs.declared.list.ListError.TheVariants.{Memory};

    ghost from_gives = { λ _ e. e ≡ Memory (record {}) };

    fn from(_: AllocFailed<T>) -> Self {
        ListError::Memory(OutOfMemory)
    }
}

/// The text is none from this line on.
fn fault(line: usize) -> ListError
    requires { line < 2 ^ 32 }
    ensures { result ≡ ListError.List (record { line = line }) }
{
    ListError::List(ListFault { line: line as u32 })
}

/// The list that the text is. Where it is none, the error tells the first line at which it can't be one.
///
/// One pass over the text, that looks a fixed number of times at each byte; the entries are all that takes memory.
pub fn read_list(alloc: Global, bytes: &[u8]) -> Result<PieceList, ListError>
    requires { length bytes.now ≤ 16777216 }
    ensures list { IfOk result (λ list. (strokes : List Stroke) × IsList bytes.now strokes × AllZip IsEntryOf strokes list.entries.items) }
    ensures entries { IfOk result (λ list. (strokes : List Stroke) → IsList bytes.now strokes → AllZip IsEntryOf strokes list.entries.items) }
    ensures fault { (f : ListFault) → result ≡ Err (ListError.List f) → IsFaultLine bytes.now f.line }
    ensures refused { (f : ListFault) → result ≡ Err (ListError.List f) → (strokes : List Stroke) → IsList bytes.now strokes → ⊥ }
{
    let mut entries = Vec::new(alloc);
    let Some(mut rest) = read_page(bytes) else {
        return Err(fault(1));
    };
    let mut least = 0;
    while !rest.is_empty() {
        let Some((entry, behind)) = read_entry(rest, least) else {
            return Err(fault(entries.len() + 2));
        };
        entries.push(entry)?;
        least = entry.view;
        rest = behind;
    }
    Ok(PieceList { entries })
}

/// The first line at which the text can't be a list, if there is one. It takes no memory, so it answers for any bytes, up to 16,777,216 of them.
/// One pass over the text, as `read_list`.
pub fn list_fault(bytes: &[u8]) -> Option<ListFault>
    requires { length bytes.now ≤ 16777216 }
    ensures list { IfNone result ((strokes : List Stroke) × IsList bytes.now strokes) }
    ensures fault { IfSome result (λ f. IsFaultLine bytes.now f.line) }
{
    let Some(mut rest) = read_page(bytes) else {
        return Some(ListFault { line: 1 });
    };
    let mut least = 0;
    let mut line = 2;
    while !rest.is_empty() {
        let Some((entry, behind)) = read_entry(rest, least) else {
            return Some(ListFault { line });
        };
        least = entry.view;
        rest = behind;
        line += 1;
    }
    None
}
