// Takes the text of a list from a desk.
ghost use Rattle.std.specs.Prelude.{◌≡◌, ◌<◌, ◌≤◌, ◌↔◌, true, length, None, Some, IfOk, IsErrOf, IsSomeAnd};
ghost use Rattle.desk.specs.Files.{OnlyReads, Rose};
ghost use Rattle.desk.specs.Taken.{IsTaken};

use crate::fetch::{FetchFault, fetch_all};
use dec_text::Name;
use desk::Desk;
use std::alloc::Global;

/// The most bytes that a list may have.
const LIST_LIMIT: usize = 16_777_216;

/// The bytes of the list with this name, as they were at entry. Nothing else of the desk changes than its count of the faults of
/// reading.
pub fn fetch_list<D: Desk>(alloc: Global, name: &Name, desk: &mut D) -> Result<Vec<u8>, FetchFault>
    ensures took { (D.state desk.old).tells ≡ true →
        IfOk result (λ bytes. (D.state desk.old).files name.now ≡ Some bytes.items) }
    ensures within { IfOk result (λ bytes. length bytes.items ≤ 16777216) }

    // By the desk's `fetches` these are the bytes that the desk gave, from the first to the last, and nothing else was fetched.
    ensures taken { IfOk result (λ bytes. IsTaken D.fetches name.now desk.old desk.new bytes.items) }
    ensures too_long { (D.state desk.old).tells ≡ true → IsErrOf result FetchFault.TooLong →
        IsSomeAnd ((D.state desk.old).files name.now) (λ bytes. 16777216 < length bytes) }

    // It fails exactly where a fault of reading was counted, on a steady desk exactly where the file is missing.
    ensures cause { IsErrOf result FetchFault.Failed →
        Rose (D.state desk.old).read_faults (D.state desk.new).read_faults }
    ensures no_cause { (IsErrOf result FetchFault.Failed → ⊥) →
        (D.state desk.new).read_faults ≡ (D.state desk.old).read_faults }
    ensures missing { (D.state desk.old).steady ≡ true →
        (IsErrOf result FetchFault.Failed ↔ ((D.state desk.old).files name.now ≡ None)) }
    ensures changes { OnlyReads (D.state desk.old) (D.state desk.new) }
{
    fetch_all(alloc, desk, name.as_str(), LIST_LIMIT)
}
