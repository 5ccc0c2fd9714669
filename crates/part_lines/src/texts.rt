// What a line says of a part that is refused.
ghost use Rattle.std.specs.Prelude.{◌≡◌, IfOk, string_bytes};
ghost use Rattle.part_lines.specs.PartTexts.{most_text, decimals_text, room_text, coordinate_text, plain_text, hint_text, part_text, mesh_text, rounding_text, advice_text};

use crate::hint::PartHint;
use fault_lines::kind_text;
use solid_mesh::MeshFault;
use std::alloc::{AllocError, Global};
use weld::{PartFault, PartKind};

/// The largest size of a coordinate in mm.
fn most_text(decimals: u8) -> &'static str
    ensures { result.now ≡ most_text decimals }
{
    match decimals {
        0 => "1048576",
        1 => "104857.6",
        2 => "10485.76",
        3 => "1048.576",
        4 => "104.8576",
        5 => "10.48576",
        _ => "1.048576",
    }
}

/// So many decimals.
fn decimals_text(alloc: Global, decimals: u8) -> Result<String, AllocError>
    ensures { IfOk result (λ text. string_bytes text ≡ decimals_text decimals) }
{
    if decimals == 1 {
        format!(in alloc; "{decimals} decimal")
    } else {
        format!(in alloc; "{decimals} decimals")
    }
}

/// With how many decimals a coordinate is in range.
fn room_text(alloc: Global, room: &Option<u8>) -> Result<String, AllocError>
    ensures { IfOk result (λ text. string_bytes text ≡ room_text room.now) }
{
    match room {
        Some(decimals) => {
            let decimals = decimals_text(alloc, *decimals)?;
            format!(in alloc; "{decimals} would do")
        }
        None => String::from_str(
            alloc,
            "no number of decimals would do: move the part to the origin",
        ),
    }
}

/// What is wrong with a coordinate that is too large.
fn coordinate_text(
    alloc: Global,
    word: &str,
    decimals: u8,
    room: &Option<u8>,
) -> Result<String, AllocError>
    ensures { IfOk result (λ text. string_bytes text ≡ coordinate_text word.now decimals room.now) }
{
    let most = most_text(decimals);
    let decimals = decimals_text(alloc, decimals)?;
    let room = room_text(alloc, room)?;
    format!(in alloc; "{word} is too large: at most {most} mm with {decimals}; {room}")
}

/// What is wrong, if no hint is given.
fn plain_text(alloc: Global, kind: &PartKind) -> Result<String, AllocError>
    ensures { IfOk result (λ text. string_bytes text ≡ plain_text kind.now) }
{
    match kind {
        PartKind::Prefixed => String::from_str(
            alloc,
            "prefixed OFF: examples/scripts/part.py writes it as plain OFF",
        ),
        PartKind::TooMany => String::from_str(
            alloc,
            "more than 20000 triangles; export a coarser mesh",
        ),
        _ => kind_text(alloc, kind),
    }
}

/// What is wrong, and what helps.
fn hint_text(alloc: Global, kind: &PartKind, hint: &PartHint) -> Result<String, AllocError>
    ensures { IfOk result (λ text. string_bytes text ≡ hint_text kind.now hint.now) }
{
    match hint {
        PartHint::Nothing => plain_text(alloc, kind),
        PartHint::Neither => String::from_str(
            alloc,
            "neither OFF nor ASCII STL: examples/scripts/part.py makes a part of STEP, IGES and 3MF",
        ),
        PartHint::BinaryStl => String::from_str(
            alloc,
            "binary: admesh -a part-ascii.stl part.stl writes a binary STL as text",
        ),
        PartHint::Vertices(n) => {
            format!(in alloc; "more than 60000 vertices: its head says {n}; export a coarser mesh")
        }
        PartHint::Faces(n) => {
            format!(in alloc;
                "more than 20000 triangles: its head says {n} faces; export a coarser mesh"
            )
        }
        PartHint::Facets(n) => {
            format!(in alloc; "more than 20000 triangles: it has {n}; export a coarser mesh")
        }
        PartHint::Coordinate(word, decimals, room) => {
            coordinate_text(alloc, word.as_str(), *decimals, room)
        }
    }
}

/// What is wrong with a part's text, where, and what helps.
pub fn part_text(alloc: Global, fault: &PartFault, hint: &PartHint) -> Result<String, AllocError>
    ensures { IfOk result (λ text. string_bytes text ≡ part_text fault.now hint.now) }
{
    let what = hint_text(alloc, &fault.kind, hint)?;
    let line = fault.line;
    format!(in alloc; "line {line}: {what}")
}

/// What is wrong with a surface.
pub fn mesh_text(alloc: Global, fault: &MeshFault) -> Result<String, AllocError>
    ensures { IfOk result (λ text. string_bytes text ≡ mesh_text fault.now) }
{
    match fault {
        MeshFault::Flat(t) => format!(in alloc; "triangle {t} is flat"),
        MeshFault::SameWay(a, b) => {
            format!(in alloc; "triangles {a} and {b} use a side the same way")
        }
        MeshFault::Unpaired(t, side) => {
            format!(in alloc; "side {side} of triangle {t} has no partner")
        }
        MeshFault::Double(a, b) => {
            format!(in alloc; "triangles {a} and {b} have the same corners")
        }
        MeshFault::Meet(edge, t) => format!(in alloc; "edge {edge} meets triangle {t}"),
    }
}

/// What helps with a fault that rounding makes.
fn rounding_text(more: bool) -> &'static str
    ensures { result.now ≡ rounding_text more }
{
    if more {
        ": try more decimals, then mend (docs/from-cad.md)"
    } else {
        ": try mend (docs/from-cad.md)"
    }
}

/// What helps with a surface; with `more` more decimals may be tried.
pub fn advice_text(fault: &MeshFault, more: bool) -> &'static str
    ensures { result.now ≡ advice_text fault.now more }
{
    match fault {
        MeshFault::Flat(_) | MeshFault::Meet(_, _) => rounding_text(more),
        MeshFault::SameWay(_, _) | MeshFault::Unpaired(_, _) | MeshFault::Double(_, _) => {
            ": docs/from-cad.md says how it is mended"
        }
    }
}
