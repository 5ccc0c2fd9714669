// What a job calls the values at its keys.
ghost use Rattle.std.specs.Prelude.{◌≡◌, Some, option_map, string_bytes, IfOk};
ghost use Rattle.job_file.specs.Seen.{scale_seen};
ghost use Rattle.job_writer.specs.Called.{angle_name, scale_name, crease_name, length_name, layout_name, principal_name, axis_name, side_name};

use dec_text::Length;
use exact_frac::OutOfMemory;
use job_file::{Principal, Scale};
use lattice::{Axis, Crease};
use std::alloc::Global;

/// The name of third-angle projection, or of first-angle projection.
pub(crate) fn angle_name(third: bool) -> &'static str
    ensures { result.now ≡ angle_name third }
{
    if third { "third" } else { "first" }
}

/// A scale as `num:den`, or `fit` if there is none.
pub(crate) fn scale_name(alloc: Global, scale: Option<Scale>) -> Result<String, OutOfMemory>
    ensures { IfOk result (λ text. string_bytes text ≡ scale_name (option_map scale_seen scale)) }
{
    match scale {
        Some(scale) => {
            let (num, den) = (scale.num, scale.den);
            Ok(format!(in alloc; "{num}:{den}")?)
        }
        None => Ok(String::from_str(alloc, "fit")?),
    }
}

/// The name of a crease.
pub(crate) fn crease_name(crease: Crease) -> &'static str
    ensures { result.now ≡ crease_name crease }
{
    match crease {
        Crease::Fine => "fine",
        Crease::Normal => "normal",
        Crease::Coarse => "coarse",
    }
}

/// The name of a length.
pub(crate) fn length_name(length: Length) -> &'static str
    ensures { result.now ≡ length_name length }
{
    match length {
        Length::Millimetre => "mm",
        Length::Inch => "inch",
    }
}

/// The name of an upright sheet, or of a lying one.
pub(crate) fn layout_name(portrait: bool) -> &'static str
    ensures { result.now ≡ layout_name portrait }
{
    if portrait { "portrait" } else { "landscape" }
}

/// The name of a view.
pub(crate) fn principal_name(name: Principal) -> &'static str
    ensures { result.now ≡ principal_name name }
{
    match name {
        Principal::Front => "front",
        Principal::Back => "back",
        Principal::Left => "left",
        Principal::Right => "right",
        Principal::Above => "above",
        Principal::Below => "below",
    }
}

/// The name of an axis.
pub(crate) fn axis_name(axis: Axis) -> &'static str
    ensures { result.now ≡ axis_name axis }
{
    match axis {
        Axis::X => "x",
        Axis::Y => "y",
        Axis::Z => "z",
    }
}

/// The name of the side from which the viewer looks.
pub(crate) fn side_name(from_high: bool) -> &'static str
    ensures { result.now ≡ side_name from_high }
{
    if from_high { "high" } else { "low" }
}
