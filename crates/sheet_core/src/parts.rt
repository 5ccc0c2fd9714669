// What is wrong with a surface, and with a sheet's room.
ghost use Rattle.std.specs.Prelude.{◌≡◌, IfOk, string_bytes};
ghost use Rattle.sheet_core.specs.Refusals.{may_try_more, nearness, placed_text, room_text, size_text, surface_text};

use crate::millimetres::point_text;
use length_text::mm_text;
use part_lines::{advice_text, mesh_text};
use sheet_input::FaultPlace;
use solid_mesh::MeshFault;
use std::alloc::{AllocError, Global};

// Whether the place of a fault is in it or near it.
fn nearness(fault: &MeshFault) -> &'static str
    ensures { result.now ≡ nearness fault.now }
{
    match fault {
        MeshFault::Flat(_) => "near",
        MeshFault::SameWay(_, _) => "near",
        MeshFault::Unpaired(_, _) => "near",
        MeshFault::Double(_, _) => "near",
        MeshFault::Meet(_, _) => "at",
    }
}

// Where it is, if a place is given.
fn placed_text(
    alloc: Global,
    place: &Option<FaultPlace>,
    fault: &MeshFault,
) -> Result<String, AllocError>
    ensures { IfOk result (λ text. string_bytes text ≡ placed_text place.now fault.now) }
{
    match place {
        None => Ok(String::new(alloc)),
        Some(place) => {
            let point = point_text(alloc, place)?;
            let near = nearness(fault);
            format!(in alloc; ", {near} {point}")
        }
    }
}

// More decimals may be tried.
fn may_try_more(place: &Option<FaultPlace>) -> bool
    ensures { result ≡ may_try_more place.now }
{
    match place {
        Some(place) => place.more,
        None => false,
    }
}

// What is wrong with a surface, where it is, and what helps.
pub(crate) fn surface_text(
    alloc: Global,
    place: &Option<FaultPlace>,
    fault: &MeshFault,
) -> Result<String, AllocError>
    ensures { IfOk result (λ text. string_bytes text ≡ surface_text place.now fault.now) }
{
    let text = mesh_text(alloc, fault)?;
    let placed = placed_text(alloc, place, fault)?;
    let advice = advice_text(fault, may_try_more(place));
    format!(in alloc; "{text}{placed}{advice}")
}

// How wide and how high something is, in 0.01 mm.
#[derive(Clone, Copy)]
pub(crate) struct Size {
    pub(crate) width: i64,
    pub(crate) height: i64,
}

// A size in mm.
pub(crate) fn size_text(alloc: Global, size: &Size) -> Result<String, AllocError>
    ensures { IfOk result (λ text. string_bytes text ≡ size_text size.now.width size.now.height) }
{
    let width = mm_text(alloc, 2, size.width)?;
    let height = mm_text(alloc, 2, size.height)?;
    format!(in alloc; "{width} by {height} mm")
}

// What the views need, and what the sheet has.
pub(crate) fn room_text(alloc: Global, need: &str, have: &str) -> Result<String, AllocError>
    ensures { IfOk result (λ text. string_bytes text ≡ room_text need.now have.now) }
{
    format!(in alloc; "views need {need}, the sheet has room for {have}")
}
