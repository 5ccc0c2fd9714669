// Takes a part from a desk, or makes a sample.
ghost use Rattle.std.specs.Prelude.{◌≡◌, ◌<◌, ◌≤◌, ◌↔◌, ℕ, List, true, length, None, Ok, IfOk, IfErr, IsErrOf, IsSome};
ghost use Rattle.desk.specs.Taken.{IsTaken, all_hold};
ghost use Rattle.std.specs.Result.{result_err};
ghost use Rattle.desk.specs.Files.{Files, OnlyReads, Rose};
ghost use Rattle.geometry.specs.Parts.{part_of};
ghost use Rattle.solid_mesh.specs.Solids.{solid_part};
ghost use Rattle.part_input.specs.Faults.{CountsReads};
ghost use Rattle.part_input.specs.Parts.{ChecksPart, TakesSoupOr, TakesSoup, TakesSolid, sample_size, IsOfPartText, IsOfSoup, IsOfPart, HasSampleOr};
ghost use Rattle.part_input.specs.Steps.{GivesInput, IsAnswerOf};
ghost use Rattle.part_input.specs.Taken.{IsSoupTaken, IsPartTaken};
ghost use Rattle.part_input.specs.inner.Texts.{IsOfMesh};

use crate::fault::{Fault, Input};
use crate::fetch::{FetchFault, fetch_all};
use crate::sample::{sample_size, sample_soup};
use crate::soup::soup_of;
use dec_text::{Length, Name};
use desk::Desk;
use job_file::Job;
use lattice::Soup;
use solid_mesh::{MeshError, Solid};
use std::alloc::Global;

/// The most bytes that a part may have.
const PART_LIMIT: usize = 16_777_216;

/// The soup of the file with this name in lengths of `unit`, in units of 10^-`decimals` mm.
fn file_soup<D: Desk>(
    alloc: Global,
    name: &Name,
    decimals: u8,
    unit: Length,
    desk: &mut D,
) -> Result<Soup, Fault>
    requires { decimals ≤ 6 }
    ensures answer { (D.state desk.old).tells ≡ true →
        GivesInput part_of (TakesSoupOr None (D.state desk.old).files name.now decimals unit) result }
    ensures taken { IfOk result (λ soup. (text : List ℕ) × IsTaken D.fetches name.now desk.old desk.new text × TakesSoupOr None (all_hold text) name.now decimals unit (Ok (part_of soup))) }
    ensures of_text { IfErr result IsOfPartText }
    ensures some_triangle { IfOk result (λ soup. 0 < length (part_of soup).triangles) }
    ensures few_corners { IfOk result (λ soup. length (part_of soup).corners ≤ 60000) }
    ensures few_triangles { IfOk result (λ soup. length (part_of soup).triangles ≤ 20000) }
    ensures reads { CountsReads (result_err result) (D.state desk.old).read_faults (D.state desk.new).read_faults }
    ensures missing { (D.state desk.old).steady ≡ true →
        (IsErrOf result (Fault.ReadFault Input.Part) ↔ ((D.state desk.old).files name.now ≡ None)) }
    ensures changes { OnlyReads (D.state desk.old) (D.state desk.new) }
{
    match fetch_all(alloc, desk, name.as_str(), PART_LIMIT) {
        Ok(bytes) => soup_of(alloc, &bytes, decimals, unit),
        Err(FetchFault::Failed) => Err(Fault::ReadFault(Input::Part)),
        Err(FetchFault::TooLong) => Err(Fault::PartTooLong),
        Err(FetchFault::Memory) => Err(Fault::Memory),
    }
}

/// The sample that the name stands for, or the soup of its file.
fn sample_or_file<D: Desk>(
    alloc: Global,
    name: &Name,
    job: &Job,
    desk: &mut D,
) -> Result<Soup, Fault>
    ensures answer { (D.state desk.old).tells ≡ true →
        GivesInput part_of (TakesSoup (D.state desk.old).files name.now job.now.decimals job.now.unit) result }
    ensures taken { IfOk result (λ soup. (text : List ℕ) × IsSoupTaken D.fetches name.now job.now.decimals job.now.unit desk.old desk.new text (part_of soup)) }
    ensures sample { IsSome (sample_size name.now) → (files : Files) → GivesInput part_of (TakesSoup files name.now job.now.decimals job.now.unit) result }
    ensures of_soup { IfErr result (IsOfSoup name.now) }
    ensures some_triangle { IfOk result (λ soup. 0 < length (part_of soup).triangles) }
    ensures few_corners { IfOk result (λ soup. length (part_of soup).corners ≤ 60000) }
    ensures few_triangles { IfOk result (λ soup. length (part_of soup).triangles ≤ 20000) }
    ensures reads { CountsReads (result_err result) (D.state desk.old).read_faults (D.state desk.new).read_faults }
    ensures missing { (D.state desk.old).steady ≡ true →
        (IsErrOf result (Fault.ReadFault Input.Part) ↔ ((sample_size name.now ≡ None) × ((D.state desk.old).files name.now ≡ None))) }
    ensures changes { OnlyReads (D.state desk.old) (D.state desk.new) }
{
    match sample_size(name.as_str()) {
        Some(size) => sample_soup(alloc, size),
        None => file_soup(alloc, name, job.decimals, job.unit, desk),
    }
}

/// The part that the name stands for, before it is checked: the sample, where the name begins with `sample:`, or what the file
/// with this name says by the job, welded. Nothing else of the desk changes than its count of the faults of reading.
pub fn fetch_soup<D: Desk>(
    alloc: Global,
    name: &Name,
    job: &Job,
    desk: &mut D,
) -> Result<Soup, Fault>
    // The soup is that of the name, from the files at entry, and each other fault than one of reading comes only where these have it.
    ensures answer { (D.state desk.old).tells ≡ true →
        GivesInput part_of (TakesSoup (D.state desk.old).files name.now job.now.decimals job.now.unit) result }
    ensures of_soup { IfErr result (IsOfSoup name.now) }

    // A sample is that of its size on every desk, whatever files there are.
    ensures sample { IsSome (sample_size name.now) → (files : Files) →
        GivesInput part_of (TakesSoup files name.now job.now.decimals job.now.unit) result }

    // By the desk's `fetches` it is that of the bytes that the desk gave, from the first to the last, and nothing else was fetched.
    ensures taken { IfOk result (λ soup. (text : List ℕ) × IsSoupTaken D.fetches name.now job.now.decimals job.now.unit desk.old desk.new text (part_of soup)) }

    // It may be checked.
    ensures some_triangle { IfOk result (λ soup. 0 < length (part_of soup).triangles) }
    ensures few_corners { IfOk result (λ soup. length (part_of soup).corners ≤ 60000) }
    ensures few_triangles { IfOk result (λ soup. length (part_of soup).triangles ≤ 20000) }

    // Where no fault of reading was counted, the answer is that of the name, or want of memory; on a steady desk always.
    ensures complete { (D.state desk.old).tells ≡ true →
        (Rose (D.state desk.old).read_faults (D.state desk.new).read_faults → ⊥) →
        IsAnswerOf (TakesSoup (D.state desk.old).files name.now job.now.decimals job.now.unit) (result_err result) }
    ensures exact { (D.state desk.old).steady ≡ true →
        IsAnswerOf (TakesSoup (D.state desk.old).files name.now job.now.decimals job.now.unit) (result_err result) }

    // A fault of reading is answered exactly where one was counted, on a steady desk exactly where a file is missing.
    ensures reads { CountsReads (result_err result) (D.state desk.old).read_faults (D.state desk.new).read_faults }
    ensures missing { (D.state desk.old).steady ≡ true →
        (IsErrOf result (Fault.ReadFault Input.Part) ↔ ((sample_size name.now ≡ None) × ((D.state desk.old).files name.now ≡ None))) }
    ensures held { (D.state desk.old).steady ≡ true → HasSampleOr (sample_size name.now) (D.state desk.old).files name.now →
        (D.state desk.new).read_faults ≡ (D.state desk.old).read_faults }
    ensures changes { OnlyReads (D.state desk.old) (D.state desk.new) }
{
    sample_or_file(alloc, name, job, desk)
}

/// The sound solid of a soup.
fn checked(alloc: Global, soup: Soup) -> Result<Solid, Fault>
    requires some_triangle { 0 < length (part_of soup).triangles }
    requires few_corners { length (part_of soup).corners ≤ 60000 }
    requires few_triangles { length (part_of soup).triangles ≤ 20000 }
    ensures answer { GivesInput solid_part (ChecksPart (part_of soup)) result }
    ensures of_mesh { IfErr result IsOfMesh }
{
    match Solid::check(alloc, soup) {
        Ok(solid) => Ok(solid),
        Err(MeshError::Mesh(fault)) => Err(Fault::Mesh(fault)),
        Err(MeshError::Memory(_)) => Err(Fault::Memory),
    }
}

/// The sound solid of the part that the name stands for: of the sample, where the name begins with `sample:`, or of the file with
/// this name, read by the job. Nothing else of the desk changes than its count of the faults of reading.
pub fn fetch_solid<D: Desk>(
    alloc: Global,
    name: &Name,
    job: &Job,
    desk: &mut D,
) -> Result<Solid, Fault>
    // The solid is that of the name, from the files at entry, and each other fault than one of reading comes only where these have it.
    ensures answer { (D.state desk.old).tells ≡ true →
        GivesInput solid_part (TakesSolid (D.state desk.old).files name.now job.now.decimals job.now.unit) result }
    ensures of_part { IfErr result (IsOfPart name.now) }

    // A sample is that of its size on every desk, whatever files there are.
    ensures sample { IsSome (sample_size name.now) → (files : Files) →
        GivesInput solid_part (TakesSolid files name.now job.now.decimals job.now.unit) result }

    // By the desk's `fetches` it is that of the bytes that the desk gave, from the first to the last, and nothing else was fetched.
    ensures taken { IfOk result (λ solid. (text : List ℕ) × IsPartTaken D.fetches name.now job.now.decimals job.now.unit desk.old desk.new text (solid_part solid)) }

    // Where no fault of reading was counted, the answer is that of the name, or want of memory; on a steady desk always.
    ensures complete { (D.state desk.old).tells ≡ true →
        (Rose (D.state desk.old).read_faults (D.state desk.new).read_faults → ⊥) →
        IsAnswerOf (TakesSolid (D.state desk.old).files name.now job.now.decimals job.now.unit) (result_err result) }
    ensures exact { (D.state desk.old).steady ≡ true →
        IsAnswerOf (TakesSolid (D.state desk.old).files name.now job.now.decimals job.now.unit) (result_err result) }

    // A fault of reading is answered exactly where one was counted, on a steady desk exactly where a file is missing.
    ensures reads { CountsReads (result_err result) (D.state desk.old).read_faults (D.state desk.new).read_faults }
    ensures missing { (D.state desk.old).steady ≡ true →
        (IsErrOf result (Fault.ReadFault Input.Part) ↔ ((sample_size name.now ≡ None) × ((D.state desk.old).files name.now ≡ None))) }
    ensures held { (D.state desk.old).steady ≡ true → HasSampleOr (sample_size name.now) (D.state desk.old).files name.now →
        (D.state desk.new).read_faults ≡ (D.state desk.old).read_faults }
    ensures changes { OnlyReads (D.state desk.old) (D.state desk.new) }
{
    match fetch_soup(alloc, name, job, desk) {
        Ok(soup) => checked(alloc, soup),
        Err(fault) => Err(fault),
    }
}
