// Takes the part that was named from a desk, and mends it.
ghost use Rattle.std.specs.Prelude.{◌≡◌, ◌⊎◌, ◌<◌, ◌≤◌, ◌↔◌, true, length, None, IfOk, IfErr, IsErrOf, IsSome};
ghost use Rattle.std.specs.Result.{result_err};
ghost use Rattle.dec_text.specs.declared.number.Length.TheVariants.{Millimetre};
ghost use Rattle.desk.specs.Files.{Files, OnlyReads};
ghost use Rattle.geometry.specs.Parts.{part_of};
ghost use Rattle.mend_core.specs.Hints.{IsToldFor};
ghost use Rattle.mend_core.specs.Run.{IsOfNamed, MendsPart, TakesPart};
ghost use Rattle.mend_core.specs.Seen.{made_seen};
ghost use Rattle.mend_core.specs.inner.Refusals.{IsHintFor, faulted};
ghost use Rattle.mend_words.specs.Seen.{named_seen};
ghost use Rattle.part_input.specs.Faults.{CountsReads};
ghost use Rattle.part_input.specs.Parts.{IsOfPartText, IsOfSoup, ReadsPart, TakesSoupOr, sample_size};
ghost use Rattle.part_input.specs.Steps.{GivesInput, IsMissing};

use crate::made::Mended;
use crate::mending::mended;
use crate::refusal::{Refusal, without_hint};
use dec_text::Length;
use desk::Desk;
use exact_frac::OutOfMemory;
use lattice::Soup;
use mend_words::MendRequest;
use part_input::{Fault, FetchFault, Input, fetch_all, sample_size, sample_soup, soup_of};
use part_lines::{PartHint, part_hint};
use std::alloc::Global;

/// The most bytes that a part may have.
const PART_LIMIT: usize = 16_777_216;

/// What helps with a fault of a text that was read with these decimals.
fn hint_for(
    alloc: Global,
    text: &[u8],
    decimals: u8,
    fault: &Fault,
) -> Result<PartHint, OutOfMemory>
    requires short { length text.now ≤ 16777216 }
    requires few { decimals ≤ 6 }
    ensures { IfOk result (IsHintFor text.now decimals fault.now) }
{
    match fault {
        Fault::Part(cause) => part_hint(alloc, text, cause, decimals, Length::Millimetre),
        _ => Ok(PartHint::Nothing),
    }
}

/// The same fault with what helps, or want of memory.
fn refusal_of(alloc: Global, text: &[u8], decimals: u8, fault: Fault) -> Refusal
    requires short { length text.now ≤ 16777216 }
    requires few { decimals ≤ 6 }
    ensures fault { (result.fault ≡ fault) ⊎ (result.fault ≡ Fault.Memory) }
    ensures hint { IsHintFor text.now decimals result.fault result.hint }
{
    match hint_for(alloc, text, decimals, &fault) {
        Ok(hint) => Refusal { fault, hint },
        Err(_) => Refusal {
            fault: Fault::Memory,
            hint: PartHint::Nothing,
        },
    }
}

/// The soup of a part's text in millimetres, in units of 10^-`decimals` mm.
fn read_soup(alloc: Global, text: &[u8], decimals: u8) -> Result<Soup, Refusal>
    requires short { length text.now ≤ 16777216 }
    requires few { decimals ≤ 6 }
    ensures answer { GivesInput part_of (ReadsPart decimals Millimetre text.now) (faulted result) }
    ensures of_text { IfErr (faulted result) IsOfPartText }
    ensures no_read { IsErrOf (faulted result) (Fault.ReadFault Input.Part) → ⊥ }
    ensures some_triangle { IfOk result (λ soup. 0 < length (part_of soup).triangles) }
    ensures few_corners { IfOk result (λ soup. length (part_of soup).corners ≤ 60000) }
    ensures few_triangles { IfOk result (λ soup. length (part_of soup).triangles ≤ 20000) }
    ensures hint { IfErr result (λ r. IsHintFor text.now decimals r.fault r.hint) }
{
    match soup_of(alloc, text, decimals, Length::Millimetre) {
        Ok(soup) => Ok(soup),
        Err(fault) => Err(refusal_of(alloc, text, decimals, fault)),
    }
}

/// The soup of the file that a request names.
fn file_soup<D: Desk>(alloc: Global, request: &MendRequest, desk: &mut D) -> Result<Soup, Refusal>
    ensures answer { (D.state desk.old).tells ≡ true →
        GivesInput part_of (TakesSoupOr None (D.state desk.old).files (named_seen request.now).part (named_seen request.now).decimals Millimetre) (faulted result) }
    ensures of_text { IfErr (faulted result) IsOfPartText }
    ensures some_triangle { IfOk result (λ soup. 0 < length (part_of soup).triangles) }
    ensures few_corners { IfOk result (λ soup. length (part_of soup).corners ≤ 60000) }
    ensures few_triangles { IfOk result (λ soup. length (part_of soup).triangles ≤ 20000) }
    ensures told { IfErr result (λ r. IsToldFor (named_seen request.now) (D.state desk.old) r.fault r.hint) }
    ensures reads { CountsReads (result_err (faulted result)) (D.state desk.old).read_faults (D.state desk.new).read_faults }
    ensures missing { (D.state desk.old).steady ≡ true →
        (IsErrOf (faulted result) (Fault.ReadFault Input.Part) ↔ ((D.state desk.old).files (named_seen request.now).part ≡ None)) }
    ensures changes { OnlyReads (D.state desk.old) (D.state desk.new) }
{
    match fetch_all(alloc, desk, request.part.as_str(), PART_LIMIT) {
        Ok(bytes) => read_soup(alloc, &bytes, request.decimals),
        Err(FetchFault::Failed) => without_hint(Err(Fault::ReadFault(Input::Part))),
        Err(FetchFault::TooLong) => without_hint(Err(Fault::PartTooLong)),
        Err(FetchFault::Memory) => without_hint(Err(Fault::Memory)),
    }
}

/// The soup of the part that a request names: of a sample nothing is fetched.
fn take_soup<D: Desk>(alloc: Global, request: &MendRequest, desk: &mut D) -> Result<Soup, Refusal>
    ensures answer { (D.state desk.old).tells ≡ true →
        GivesInput part_of (TakesPart (D.state desk.old).files (named_seen request.now)) (faulted result) }
    ensures sample { IsSome (sample_size (named_seen request.now).part) → (files : Files) →
        GivesInput part_of (TakesPart files (named_seen request.now)) (faulted result) }
    ensures of_soup { IfErr (faulted result) (IsOfSoup (named_seen request.now).part) }
    ensures some_triangle { IfOk result (λ soup. 0 < length (part_of soup).triangles) }
    ensures few_corners { IfOk result (λ soup. length (part_of soup).corners ≤ 60000) }
    ensures few_triangles { IfOk result (λ soup. length (part_of soup).triangles ≤ 20000) }
    ensures told { IfErr result (λ r. IsToldFor (named_seen request.now) (D.state desk.old) r.fault r.hint) }
    ensures reads { CountsReads (result_err (faulted result)) (D.state desk.old).read_faults (D.state desk.new).read_faults }
    ensures missing { (D.state desk.old).steady ≡ true →
        IfErr (faulted result) (IsMissing (TakesPart (D.state desk.old).files (named_seen request.now))) }
    ensures changes { OnlyReads (D.state desk.old) (D.state desk.new) }
{
    match sample_size(request.part.as_str()) {
        Some(size) => without_hint(sample_soup(alloc, size)),
        None => file_soup(alloc, request, desk),
    }
}

/// The part that a request names, mended.
pub(crate) fn take<D: Desk>(
    alloc: Global,
    request: &MendRequest,
    desk: &mut D,
) -> Result<Mended, Refusal>
    ensures answer { (D.state desk.old).tells ≡ true →
        GivesInput made_seen (MendsPart (D.state desk.old).files (named_seen request.now)) (faulted result) }
    ensures sample { IsSome (sample_size (named_seen request.now).part) → (files : Files) →
        GivesInput made_seen (MendsPart files (named_seen request.now)) (faulted result) }
    ensures of_named { IfErr (faulted result) (IsOfNamed (named_seen request.now)) }
    ensures told { IfErr result (λ r. IsToldFor (named_seen request.now) (D.state desk.old) r.fault r.hint) }
    ensures reads { CountsReads (result_err (faulted result)) (D.state desk.old).read_faults (D.state desk.new).read_faults }
    ensures missing { (D.state desk.old).steady ≡ true →
        IfErr (faulted result) (IsMissing (MendsPart (D.state desk.old).files (named_seen request.now))) }
    ensures changes { OnlyReads (D.state desk.old) (D.state desk.new) }
{
    match take_soup(alloc, request, desk) {
        Ok(soup) => without_hint(mended(alloc, soup, request.limit)),
        Err(refusal) => Err(refusal),
    }
}
