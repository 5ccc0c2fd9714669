// The text of a part.
ghost use Rattle.std.specs.Prelude.{◌≡◌, ◌<◌, ◌≤◌, ◌↔◌, true, length, None, IfOk, IfErr, IsErrOf, IsSome};
ghost use Rattle.std.specs.Result.{result_err};
ghost use Rattle.desk.specs.Files.{Files, OnlyReads};
ghost use Rattle.geometry.specs.Parts.{part_of};
ghost use Rattle.part_input.specs.Faults.{CountsReads};
ghost use Rattle.part_input.specs.Parts.{IsOfPartText, IsOfSoup, sample_size};
ghost use Rattle.part_input.specs.Steps.{GivesInput};
ghost use Rattle.sheet_input.specs.Texts.{ReadsSoup, TakesText, TakesTextOr};
ghost use Rattle.sheet_input.specs.inner.Taking.{IsOfNoRead, IsOfNoText, IsOfSoupIn, size_in, text_seen};

use crate::taken_text::{PartBytes, PartText};
use dec_text::{Length, Name};
use desk::Desk;
use lattice::Soup;
use part_input::{Fault, FetchFault, Input, fetch_all, sample_size, sample_soup, soup_of};
use std::alloc::Global;

/// The most bytes that a part may have.
const PART_LIMIT: usize = 16_777_216;

/// What the file of this name says.
fn take_bytes<D: Desk>(alloc: Global, name: &Name, desk: &mut D) -> Result<PartText, Fault>
    ensures answer { (D.state desk.old).tells ≡ true → GivesInput text_seen (TakesTextOr None (D.state desk.old).files name.now) result }
    ensures of_file { IfErr result IsOfPartText }
    ensures no_text { IfErr result IsOfNoText }
    ensures of_bytes { IfOk result (λ text. size_in (text_seen text) ≡ None) }
    ensures reads { CountsReads (result_err result) (D.state desk.old).read_faults (D.state desk.new).read_faults }
    ensures missing { (D.state desk.old).steady ≡ true →
        (IsErrOf result (Fault.ReadFault Input.Part) ↔ ((D.state desk.old).files name.now ≡ None)) }
    ensures changes { OnlyReads (D.state desk.old) (D.state desk.new) }
{
    match fetch_all(alloc, desk, name.as_str(), PART_LIMIT) {
        Ok(bytes) => Ok(PartText::Bytes(PartBytes { bytes })),
        Err(FetchFault::Failed) => Err(Fault::ReadFault(Input::Part)),
        Err(FetchFault::TooLong) => Err(Fault::PartTooLong),
        Err(FetchFault::Memory) => Err(Fault::Memory),
    }
}

/// What the name of a part stands for: of a sample nothing is fetched.
pub(crate) fn take_text<D: Desk>(
    alloc: Global,
    name: &Name,
    desk: &mut D,
) -> Result<PartText, Fault>
    ensures answer { (D.state desk.old).tells ≡ true → GivesInput text_seen (TakesText (D.state desk.old).files name.now) result }
    ensures sample { IsSome (sample_size name.now) → (files : Files) → GivesInput text_seen (TakesText files name.now) result }
    ensures of_part { IfErr result (IsOfSoup name.now) }
    ensures no_text { IfErr result IsOfNoText }
    ensures of_size { IfOk result (λ text. size_in (text_seen text) ≡ sample_size name.now) }
    ensures reads { CountsReads (result_err result) (D.state desk.old).read_faults (D.state desk.new).read_faults }
    ensures missing { (D.state desk.old).steady ≡ true →
        (IsErrOf result (Fault.ReadFault Input.Part) ↔ ((sample_size name.now ≡ None) × ((D.state desk.old).files name.now ≡ None))) }
    ensures changes { OnlyReads (D.state desk.old) (D.state desk.new) }
{
    match sample_size(name.as_str()) {
        Some(size) => match Name::new(alloc, size) {
            Ok(size) => Ok(PartText::Sample(size)),
            Err(_) => Err(Fault::Memory),
        },
        None => take_bytes(alloc, name, desk),
    }
}

/// The part that a text says at a number of decimals, in lengths of this unit, before it is checked.
pub(crate) fn soup_in(
    alloc: Global,
    text: &PartText,
    decimals: u8,
    unit: Length,
) -> Result<Soup, Fault>
    requires { decimals ≤ 6 }
    ensures answer { GivesInput part_of (ReadsSoup (text_seen text.now) decimals unit) result }
    ensures of_soup { IfErr result (IsOfSoupIn (text_seen text.now)) }
    ensures no_read { IfErr result IsOfNoRead }
    ensures some_triangle { IfOk result (λ soup. 0 < length (part_of soup).triangles) }
    ensures few_corners { IfOk result (λ soup. length (part_of soup).corners ≤ 60000) }
    ensures few_triangles { IfOk result (λ soup. length (part_of soup).triangles ≤ 20000) }
{
    match text {
        PartText::Sample(size) => sample_soup(alloc, size.as_str()),
        PartText::Bytes(file) => soup_of(alloc, &file.bytes, decimals, unit),
    }
}
