// What a list says that a view shows.
ghost use Rattle.std.specs.Prelude.{◌≡◌, ◌<◌, ◌++◌, Some, codes, string_bytes, IfOk, OnOk};
ghost use Rattle.std.specs.Fmt.{signed_decimal};
ghost use Rattle.job_file.specs.Names.{principals};
ghost use Rattle.job_file.specs.CutKeys.{sides};
ghost use Rattle.job_file.specs.Steps.{look_up};
ghost use Rattle.lattice.specs.Cuts.{Plane, plane_of};
ghost use Rattle.lattice.specs.Points.{of_dir};
ghost use Rattle.svg_page.specs.Texts.{◌⊕◌};
ghost use Rattle.cut_marks.specs.AxisNames.{axis_name};
ghost use Rattle.sheet_list.specs.Shown.{name_of, side_name, letter_text, toward_text, plain_text, cut_text, shown_text};

use cut_marks::{axis_name, letter_of};
use exact_frac::OutOfMemory;
use job_file::{JobView, Principal};
use lattice::{Cut, Dir, ViewSpec};
use std::alloc::{AllocError, Global};

/// The name of a view, as a job calls it.
fn name_of(name: Principal) -> &'static str
    ensures text { result.now ≡ name_of name }
    ensures in_a_job { look_up principals result.now ≡ Some name }
{
    match name {
        Principal::Front => "front",
        Principal::Back => "back",
        Principal::Left => "left",
        Principal::Right => "right",
        Principal::Above => "above",
        Principal::Below => "below",
    }
}

/// The name of the side from which the viewer looks, as a job calls it.
fn side_name(from_high: bool) -> &'static str
    ensures text { result.now ≡ side_name from_high }
    ensures in_a_job { look_up sides result.now ≡ Some from_high }
{
    if from_high { "high" } else { "low" }
}

/// A direction.
fn toward_text(alloc: Global, direction: &Dir) -> Result<String, AllocError>
    ensures { IfOk result (λ text. string_bytes text ≡ toward_text (of_dir direction.now)) }
{
    let vector = direction.vector();
    let (x, y, z) = (vector.x, vector.y, vector.z);
    format!(in alloc; "toward {x} {y} {z}")
}

/// The plane of a cut, as it stands before the cut's letter.
fn plane_text(alloc: Global, cut: &Cut) -> Result<String, AllocError>
    ensures { IfOk result (λ text. string_bytes text ≡
        codes "cut " ⊕ axis_name (plane_of cut.now).axis ⊕ codes " " ⊕ signed_decimal (plane_of cut.now).at ⊕ codes " " ⊕ side_name (plane_of cut.now).from_high ⊕ codes " ") }
{
    let axis = axis_name(cut.axis());
    let at = cut.at();
    let side = side_name(cut.from_high());
    format!(in alloc; "cut {axis} {at} {side} ")
}

/// Adds a cut with this number.
fn add_cut(alloc: Global, text: &mut Vec<u8>, number: usize, cut: &Cut) -> Result<(), OutOfMemory>
    requires { number < 12 }
    ensures { OnOk result (text.new.items ≡ text.old.items ++ cut_text number (plane_of cut.now)) }
{
    let plane = plane_text(alloc, cut)?;
    text.extend_from_slice(plane.as_bytes())?;
    text.push(letter_of(number))?;
    Ok(())
}

/// Adds a view of the whole part.
fn add_plain(
    alloc: Global,
    text: &mut Vec<u8>,
    named: Option<Principal>,
    direction: &Dir,
) -> Result<(), OutOfMemory>
    ensures { OnOk result (text.new.items ≡ text.old.items ++ plain_text named (of_dir direction.now)) }
{
    match named {
        Some(name) => text.extend_from_slice(name_of(name).as_bytes())?,
        None => text.extend_from_slice(toward_text(alloc, direction)?.as_bytes())?,
    }
    Ok(())
}

/// Adds what a view shows that is behind those with so many cuts.
pub(crate) fn add_shown(
    alloc: Global,
    text: &mut Vec<u8>,
    cuts: usize,
    view: &JobView,
) -> Result<(), OutOfMemory>
    requires { cuts < 12 }
    ensures { OnOk result (text.new.items ≡ text.old.items ++ shown_text cuts view.now.named view.now.spec) }
{
    match &view.spec {
        ViewSpec::Plain(direction) => add_plain(alloc, text, view.named, direction),
        ViewSpec::Section(cut) => add_cut(alloc, text, cuts, cut),
    }
}
