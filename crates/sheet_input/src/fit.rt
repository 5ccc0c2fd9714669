// The number of decimals at which a part is accepted.
ghost use Rattle.std.specs.Prelude.{◌≡◌, ◌⊎◌, ◌<◌, ◌≤◌, ◌↔◌, IsTrue, Bool, [], length, Ok, IfOk, IfErr, option_copied};
ghost use Rattle.std.specs.List.{All};
ghost use Rattle.std.specs.Option.{ForSome};
ghost use Rattle.job_file.specs.Documents.{JobValues};
ghost use Rattle.part_input.specs.Steps.{RefusesOf};
ghost use Rattle.geometry.specs.Parts.{part_of};
ghost use Rattle.job_file.specs.Seen.{job_seen};
ghost use Rattle.job_file.specs.Texts.{is_title};
ghost use Rattle.part_input.specs.Parts.{ChecksPart};
ghost use Rattle.sheet_job.specs.SheetSeen.{sheet_job_seen};
ghost use Rattle.solid_mesh.specs.Faults.{HasFault};
ghost use Rattle.solid_mesh.specs.Solids.{solid_part};
ghost use Rattle.sheet_input.specs.Answers.{GivesSheet};
ghost use Rattle.sheet_input.specs.Faults.{sheet_faults};
ghost use Rattle.sheet_input.specs.Fits.{Attempts, Fits, FitsBy, SettlesBy, first_by, is_below_most, is_range, last_by, others_by};
ghost use Rattle.sheet_input.specs.Jobs.{Lifted, older_job, own_job};
ghost use Rattle.sheet_input.specs.Texts.{ReadsSolid};
ghost use Rattle.sheet_input.specs.Seen.{any_seen};
ghost use Rattle.sheet_input.specs.inner.Taking.{is_short, IsOfFit, IsOfMeshIn, IsOfOwn, IsOfSolidIn, IsOfSoupIn, IsToldAt, IsToldFit, IsToldIn, IsToldJob, IsToldOf, IsToldText, settled_seen, text_seen};

use crate::fault::SheetFault;
use crate::jobs::{settled_at, titled};
use crate::place::FaultPlace;
use crate::refusal::{Refusal, Told, plain, short};
use crate::taken_text::PartText;
use crate::text::soup_in;
use dec_text::{Length, Name};
use fault_place::fault_place;
use job_file::Job;
use lattice::Soup;
use part_input::Fault;
use part_lines::part_hint;
use sheet_job::{AnyJob, SheetJob};
use solid_mesh::{MeshError, MeshFault, Solid};
use std::alloc::Global;
use weld::{PartFault, PartKind};

/// A job and a part, both at one number of decimals.
#[derive(Drop)]
pub(crate) struct Settled {
    pub(crate) job: Job,
    pub(crate) solid: Solid,
}

/// The refusal of a surface, with the place of its fault.
fn at_place(alloc: Global, soup: &Soup, decimals: u8, more: bool, fault: MeshFault) -> Refusal
    requires fault { HasFault (part_of soup.now) fault }
    requires few { decimals ≤ 6 }
    ensures fault { (result.fault ≡ SheetFault.Common (Fault.Mesh fault)) ⊎ (result.fault ≡ SheetFault.Common Fault.Memory) }
    ensures told { IsToldOf (part_of soup.now) decimals more result.fault result.told }
{
    match fault_place(alloc, soup, &fault) {
        Ok(corner) => Refusal {
            fault: SheetFault::Common(Fault::Mesh(fault)),
            told: Told::Surface(FaultPlace {
                corner,
                decimals,
                more,
            }),
        },
        Err(_) => short(),
    }
}

/// The sound solid of a soup, or the place where its surface is at fault. The soup is kept beside the check for that.
fn sound(alloc: Global, soup: Soup, decimals: u8, more: bool) -> Result<Solid, Refusal>
    requires few { decimals ≤ 6 }
    requires some_triangle { 0 < length (part_of soup).triangles }
    requires few_corners { length (part_of soup).corners ≤ 60000 }
    requires few_triangles { length (part_of soup).triangles ≤ 20000 }
    ensures answer { GivesSheet solid_part (Lifted (ChecksPart (part_of soup))) result }
    ensures of_mesh { IfErr result (λ r. IsOfMeshIn r.fault) }
    ensures told { IfErr result (λ r. IsToldOf (part_of soup) decimals more r.fault r.told) }
{
    let kept = match soup.copy(alloc) {
        Ok(kept) => kept,
        Err(_) => return Err(short()),
    };
    match Solid::check(alloc, soup) {
        Ok(solid) => Ok(solid),
        Err(MeshError::Mesh(fault)) => Err(at_place(alloc, &kept, decimals, more, fault)),
        Err(MeshError::Memory(_)) => Err(short()),
    }
}

/// The refusal of a file's text, with what helps.
fn with_hint(
    alloc: Global,
    text: &PartText,
    decimals: u8,
    unit: Length,
    fault: PartFault,
) -> Refusal
    requires few { decimals ≤ 6 }
    requires of_file { IsOfSoupIn (text_seen text.now) (Fault.Part fault) }
    ensures fault { (result.fault ≡ SheetFault.Common (Fault.Part fault)) ⊎ (result.fault ≡ SheetFault.Common Fault.Memory) }
    ensures told { (more : Bool) → IsToldText (text_seen text.now) decimals unit more result.fault result.told }
{
    let hint = match text {
        PartText::Sample(_) => return short(),
        PartText::Bytes(file) => part_hint(alloc, &file.bytes, &fault, decimals, unit),
    };
    match hint {
        Ok(hint) => Refusal {
            fault: SheetFault::Common(Fault::Part(fault)),
            told: Told::Text(hint),
        },
        Err(_) => short(),
    }
}

/// The sound part that a text says at a number of decimals, in lengths of this unit.
fn solid_in(
    alloc: Global,
    text: &PartText,
    decimals: u8,
    unit: Length,
    more: bool,
) -> Result<Solid, Refusal>
    requires few { decimals ≤ 6 }
    ensures answer { GivesSheet solid_part (Lifted (ReadsSolid (text_seen text.now) decimals unit)) result }
    ensures of_solid { IfErr result (λ r. IsOfSolidIn (text_seen text.now) r.fault) }
    ensures told { IfErr result (λ r. IsToldText (text_seen text.now) decimals unit more r.fault r.told) }
{
    match soup_in(alloc, text, decimals, unit) {
        Ok(soup) => sound(alloc, soup, decimals, more),
        Err(Fault::Part(fault)) => Err(with_hint(alloc, text, decimals, unit, fault)),
        Err(fault) => Err(plain(SheetFault::Common(fault))),
    }
}

/// A number of decimals is named, and a greater one could be.
fn is_below_most(decimals: Option<u8>) -> bool
    ensures { result ≡ is_below_most decimals }
{
    match decimals {
        Some(decimals) => decimals < 6,
        None => false,
    }
}

/// An older job and its part, at the job's number of decimals.
fn older_settled(alloc: Global, job: Job, title: Name, text: &PartText) -> Result<Settled, Refusal>
    requires { IsTrue (is_title title) }
    ensures answer { GivesSheet settled_seen (Attempts title (older_job (job_seen job)) (text_seen text.now) job.decimals) result }
    ensures of_solid { IfErr result (λ r. IsOfSolidIn (text_seen text.now) r.fault) }
    ensures told { IfErr result (λ r. IsToldFit title (AnyJob.Older job) (text_seen text.now) job.decimals [] r.fault r.told) }
{
    let job = titled(job, title);
    let more = is_below_most(Some(job.decimals));
    match solid_in(alloc, text, job.decimals, job.unit, more) {
        Ok(solid) => Ok(Settled { job, solid }),
        Err(refusal) => Err(refusal),
    }
}

/// A job of version 3 and its part, at a number of decimals.
fn attempt(
    alloc: Global,
    job: &SheetJob,
    title: &Name,
    text: &PartText,
    decimals: u8,
) -> Result<Settled, Refusal>
    requires title { IsTrue (is_title title.now) }
    requires few { decimals ≤ 6 }
    ensures answer { GivesSheet settled_seen (Attempts title.now (own_job (sheet_job_seen job.now)) (text_seen text.now) decimals) result }
    ensures of_fit { IfErr result (λ r. IsOfFit (text_seen text.now) r.fault) }
    ensures told { IfErr result (λ r. IsToldAt (AnyJob.Own job.now) (text_seen text.now) decimals r.fault r.told) }
{
    let more = is_below_most(job.decimals);
    let job = settled_at(alloc, job, decimals, title)?;
    let solid = solid_in(alloc, text, decimals, job.unit, more)?;
    Ok(Settled { job, solid })
}

/// The fault says that the job or the part is out of range.
fn is_range(fault: &SheetFault) -> bool
    ensures { result ≡ is_range fault.now }
{
    match fault {
        SheetFault::OwnJob => true,
        SheetFault::Common(Fault::Part(fault)) => fault.kind == PartKind::TooLarge,
        _ => false,
    }
}

/// Memory ran out.
fn is_short(refusal: &Refusal) -> bool
    ensures { result ≡ is_short refusal.now.fault }
{
    matches!(refusal.fault, SheetFault::Common(Fault::Memory))
}

/// A job of version 3 and its part, at the first number of decimals at which the part is accepted. At most five are tried.
fn fitted(
    alloc: Global,
    job: &SheetJob,
    title: &Name,
    text: &PartText,
    first: u8,
    others: &[u8],
) -> Result<Settled, Refusal>
    requires title { IsTrue (is_title title.now) }
    requires few { first ≤ 6 }
    requires all_few { All (λ n. n ≤ 6) others.now }
    ensures answer { GivesSheet settled_seen (Fits (Attempts title.now (own_job (sheet_job_seen job.now)) (text_seen text.now)) first others.now) result }
    ensures of_fit { IfErr result (λ r. IsOfFit (text_seen text.now) r.fault) }
    ensures told { IfErr result (λ r. IsToldFit title.now (AnyJob.Own job.now) (text_seen text.now) first others.now r.fault r.told) }
{
    let here = match attempt(alloc, job, title, text, first) {
        Ok(settled) => return Ok(settled),
        Err(refusal) => refusal,
    };
    if is_short(&here) {
        return Err(here);
    }
    match others {
        [] => Err(here),
        [next, rest @ ..] => match fitted(alloc, job, title, text, *next, rest) {
            Ok(settled) => Ok(settled),
            Err(later) if is_short(&later) || is_range(&here.fault) => Err(later),
            Err(_) => Err(here),
        },
    }
}

/// The job of version 3 and the part of this name, at the number of decimals that fits.
fn own_settled(
    alloc: Global,
    job: SheetJob,
    title: Name,
    size: Option<&str>,
    text: &PartText,
) -> Result<Settled, Refusal>
    requires { IsTrue (is_title title) }
    ensures answer { GivesSheet settled_seen (Fits (Attempts title (own_job (sheet_job_seen job)) (text_seen text.now)) (first_by job.decimals (option_copied size.entry)) (others_by job.decimals (option_copied size.entry))) result }
    ensures of_fit { IfErr result (λ r. IsOfFit (text_seen text.now) r.fault) }
    ensures told { IfErr result (λ r. IsToldIn title (AnyJob.Own job) (option_copied size.entry) (text_seen text.now) r.fault r.told) }
{
    match (job.decimals, size) {
        (Some(decimals), _) => fitted(alloc, &job, &title, text, decimals, &[]),
        (None, Some(_)) => fitted(alloc, &job, &title, text, 3, &[]),
        (None, None) => fitted(alloc, &job, &title, text, 6, &[5, 4, 3, 2]),
    }
}

/// The job and the part of this name, at the number of decimals that fits.
pub(crate) fn fit_part(
    alloc: Global,
    job: AnyJob,
    title: Name,
    size: Option<&str>,
    text: &PartText,
) -> Result<Settled, Refusal>
    requires { IsTrue (is_title title) }
    ensures answer { GivesSheet settled_seen (FitsBy title (any_seen job) (option_copied size.entry) (text_seen text.now)) result }
    ensures of_fit { IfErr result (λ r. IsOfFit (text_seen text.now) r.fault) }
    ensures told { IfErr result (λ r. IsToldIn title job (option_copied size.entry) (text_seen text.now) r.fault r.told) }
{
    match job {
        AnyJob::Older(job) => older_settled(alloc, job, title, text),
        AnyJob::Own(job) => own_settled(alloc, job, title, size, text),
    }
}

/// The last number of decimals that is tried.
fn last_by(decimals: Option<u8>, size: Option<&str>) -> u8
    requires { ForSome decimals (λ n. n ≤ 6) }
    ensures value { result ≡ last_by decimals (option_copied size.entry) }
    ensures few { result ≤ 6 }
{
    match (decimals, size) {
        (Some(decimals), _) => decimals,
        (None, Some(_)) => 3,
        (None, None) => 2,
    }
}

/// The job's places of cuts are in range at the last number of decimals that is tried.
pub(crate) fn check_last(
    alloc: Global,
    job: &AnyJob,
    title: &Name,
    size: Option<&str>,
) -> Result<(), Refusal>
    requires { IsTrue (is_title title.now) }
    ensures passed { IfOk result (λ _. (values : JobValues) × SettlesBy title.now (any_seen job.now) (option_copied size.entry) (Ok values)) }
    ensures refused { IfErr result (λ r. RefusesOf sheet_faults (SettlesBy title.now (any_seen job.now) (option_copied size.entry)) r.fault) }
    ensures of_job { IfErr result (λ r. IsOfOwn r.fault) }
    ensures told { IfErr result (λ r. IsToldJob job.now (option_copied size.entry) r.fault r.told) }
{
    match job {
        AnyJob::Older(_) => Ok(()),
        AnyJob::Own(job) => {
            match settled_at(alloc, job, last_by(job.decimals, size), title) {
                Ok(_) => Ok(()),
                Err(refusal) => Err(refusal),
            }
        }
    }
}
