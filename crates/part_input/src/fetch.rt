// Fetches a file from a desk, a block at a time.
ghost use Rattle.std.specs.Prelude.{◌≡◌, ◌<◌, ◌≤◌, ◌+◌, ◌++◌, ◌↔◌, ℕ, List, true, length, None, Some, vec_len, IfOk, IsErrOf, IsSomeAnd};
ghost use Rattle.desk.specs.Files.{OnlyReads, Rose};
ghost use Rattle.desk.specs.Taken.{IsTaken};
ghost use Rattle.part_input.specs.inner.Fetch.{IsFetchedOnto, AddsFetched};
ghost use Rattle.part_input.specs.declared.fetch.FetchFault.TheVariants.{Memory};

use desk::{Desk, Failed};
use std::alloc::{AllocError, Global};

// How many bytes a fetch asks for.
const BLOCK: usize = 65_536;

/// Why a file wasn't fetched.
#[derive(Clone, Copy)]
pub enum FetchFault {
    /// A fetch failed.
    Failed,
    /// More bytes than the limit were taken.
    TooLong,
    /// Memory ran out.
    Memory,
}

impl From<AllocError> for FetchFault {
    ghost from_gives = { λ _ fault. fault ≡ Memory };

    fn from(_: AllocError) -> Self {
        FetchFault::Memory
    }
}

// Takes the next block of a file to the end of out.
fn fetch_block<D: Desk>(desk: &mut D, name: &str, out: &mut Vec<u8>) -> Result<usize, FetchFault>
    ensures took { (D.state desk.old).tells ≡ true →
        IfOk result (λ n. IsFetchedOnto ((D.state desk.old).files name.now) out.old.items n out.new.items) }
    ensures count { IfOk result (λ n. (vec_len out.new ≡ vec_len out.old + n) × (n ≤ BLOCK)) }
    ensures fetched { IfOk result (λ n. AddsFetched D.fetches name.now desk.old desk.new out.old.items n out.new.items) }
    ensures not_long { IsErrOf result FetchFault.TooLong → ⊥ }
    ensures changes { OnlyReads (D.state desk.old) (D.state desk.new) }
    ensures cause { IsErrOf result FetchFault.Failed →
        Rose (D.state desk.old).read_faults (D.state desk.new).read_faults }
    ensures no_cause { (IsErrOf result FetchFault.Failed → ⊥) →
        (D.state desk.new).read_faults ≡ (D.state desk.old).read_faults }
    ensures missing { (D.state desk.old).steady ≡ true →
        (IsErrOf result FetchFault.Failed ↔ ((D.state desk.old).files name.now ≡ None)) }
{
    let mut block = [0u8; BLOCK];
    let at = out.len() as u64;
    match desk.fetch(name, at, &mut block) {
        Err(Failed) => Err(FetchFault::Failed),
        Ok(n) => {
            out.extend_from_slice(&block[..n])?;
            Ok(n)
        }
    }
}

/// Fetches a file of at most `limit` bytes. It ends at the end of the file, at a fault, or once the limit is passed.
pub fn fetch_all<D: Desk>(
    alloc: Global,
    desk: &mut D,
    name: &str,
    limit: usize,
) -> Result<Vec<u8>, FetchFault>
    ensures took { (D.state desk.old).tells ≡ true →
        IfOk result (λ bytes. (D.state desk.old).files name.now ≡ Some bytes.items) }
    ensures within { IfOk result (λ bytes. vec_len bytes ≤ limit) }
    ensures taken { IfOk result (λ bytes. IsTaken D.fetches name.now desk.old desk.new bytes.items) }
    ensures too_long { (D.state desk.old).tells ≡ true → IsErrOf result FetchFault.TooLong →
        IsSomeAnd ((D.state desk.old).files name.now) (λ bytes. limit < length bytes) }
    ensures changes { OnlyReads (D.state desk.old) (D.state desk.new) }
    ensures cause { IsErrOf result FetchFault.Failed →
        Rose (D.state desk.old).read_faults (D.state desk.new).read_faults }
    ensures no_cause { (IsErrOf result FetchFault.Failed → ⊥) →
        (D.state desk.new).read_faults ≡ (D.state desk.old).read_faults }
    ensures missing { (D.state desk.old).steady ≡ true →
        (IsErrOf result FetchFault.Failed ↔ ((D.state desk.old).files name.now ≡ None)) }
{
    let mut out = Vec::new(alloc);
    while out.len() <= limit {
        if fetch_block(desk, name, &mut out)? == 0 {
            return Ok(out);
        }
    }
    Err(FetchFault::TooLong)
}
