// The views of a job.
ghost use Rattle.std.specs.Prelude.{◌≡◌, ◌++◌, map, string_bytes, None, IfOk, OnOk};
ghost use Rattle.std.specs.Fmt.{signed_decimal};
ghost use Rattle.std.specs.List.{flat_map};
ghost use Rattle.lattice.specs.Cuts.{plane_of};
ghost use Rattle.lattice.specs.Points.{of_dir};
ghost use Rattle.job_file.specs.Seen.{shown, view_seen};
ghost use Rattle.job_file.specs.ViewValues.{whole, behind};
ghost use Rattle.job_writer.specs.Pairs.{key_line};
ghost use Rattle.job_writer.specs.PlainJobs.{direction_text, view_pairs, view_block};

use crate::called::{axis_name, principal_name, side_name};
use crate::pairs::{push_line, push_word};
use exact_frac::OutOfMemory;
use job_file::JobView;
use lattice::{Cut, Dir, ViewSpec};
use std::alloc::Global;

/// A direction's components, in brackets.
fn direction_text(alloc: Global, direction: &Dir) -> Result<String, OutOfMemory>
    ensures { IfOk result (λ text. string_bytes text ≡ direction_text (of_dir direction.now)) }
{
    let vector = direction.vector();
    let (x, y, z) = (vector.x, vector.y, vector.z);
    Ok(format!(in alloc; "[{x}, {y}, {z}]")?)
}

/// Writes the key of a direction at the end.
fn push_toward(alloc: Global, text: &mut String, direction: &Dir) -> Result<(), OutOfMemory>
    ensures { OnOk result (string_bytes text.new ≡ string_bytes text.old ++ flat_map key_line (view_pairs None (whole (of_dir direction.now)))) }
{
    push_line(text, "toward", direction_text(alloc, direction)?.as_str())
}

/// A whole number.
fn number_text(alloc: Global, number: i64) -> Result<String, OutOfMemory>
    ensures { IfOk result (λ text. string_bytes text ≡ signed_decimal number) }
{
    Ok(format!(in alloc; "{number}")?)
}

/// Writes the keys of a cut at the end.
fn push_cut(alloc: Global, text: &mut String, cut: &Cut) -> Result<(), OutOfMemory>
    ensures { OnOk result (string_bytes text.new ≡ string_bytes text.old ++ flat_map key_line (view_pairs None (behind (plane_of cut.now)))) }
{
    push_word(text, "cut", axis_name(cut.axis()))?;
    push_line(text, "at", number_text(alloc, cut.at())?.as_str())?;
    push_word(text, "from", side_name(cut.from_high()))
}

/// Writes the keys of a view at the end.
fn push_keys(alloc: Global, text: &mut String, view: &JobView) -> Result<(), OutOfMemory>
    ensures { OnOk result (string_bytes text.new ≡ string_bytes text.old ++ flat_map key_line (view_pairs view.now.named (shown view.now.spec))) }
{
    match view.named {
        Some(name) => push_word(text, "name", principal_name(name)),
        None => match &view.spec {
            ViewSpec::Plain(direction) => push_toward(alloc, text, direction),
            ViewSpec::Section(cut) => push_cut(alloc, text, cut),
        },
    }
}

/// Writes a view at the end.
fn push_view(alloc: Global, text: &mut String, view: &JobView) -> Result<(), OutOfMemory>
    ensures { OnOk result (string_bytes text.new ≡ string_bytes text.old ++ view_block (view_seen view.now)) }
{
    text.push_str("\n[[view]]\n")?;
    push_keys(alloc, text, view)
}

/// Writes the views at the end.
pub(crate) fn push_views(
    alloc: Global,
    text: &mut String,
    views: &[JobView],
) -> Result<(), OutOfMemory>
    ensures { OnOk result (string_bytes text.new ≡ string_bytes text.old ++ flat_map view_block (map view_seen views.now)) }
{
    for view in views {
        push_view(alloc, text, view)?;
    }
    Ok(())
}
