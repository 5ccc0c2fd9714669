// Places in millimetres, as a line tells them.
ghost use Rattle.std.specs.Prelude.{◌≡◌, IfOk, string_bytes};
ghost use Rattle.sheet_core.specs.Places.{point_text};

use length_text::mm_text;
use sheet_input::FaultPlace;
use std::alloc::{AllocError, Global};

// A place in mm.
pub(crate) fn point_text(alloc: Global, place: &FaultPlace) -> Result<String, AllocError>
    ensures { IfOk result (λ text. string_bytes text ≡ point_text place.now) }
{
    let x = mm_text(alloc, place.decimals, i64::from(place.corner.x))?;
    let y = mm_text(alloc, place.decimals, i64::from(place.corner.y))?;
    let z = mm_text(alloc, place.decimals, i64::from(place.corner.z))?;
    format!(in alloc; "({x}, {y}, {z}) mm")
}
