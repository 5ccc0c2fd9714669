// Cut views.
ghost use Rattle.std.specs.Prelude.{◌≡◌, IfOk, None, codes};
ghost use Rattle.std.specs.Option.{option_and_then};
ghost use Rattle.lattice.specs.Cuts.{plane_of};
ghost use Rattle.toml.specs.Data.{get_member, as_str, as_integer};
ghost use Rattle.toml.specs.View.{view, table_view};
ghost use Rattle.job_file.specs.CutKeys.{axes, sides, plane_at, cut_view};
ghost use Rattle.job_file.specs.Seen.{view_seen};
ghost use Rattle.job_file.specs.Steps.{look_up};
ghost use Rattle.job_file.specs.inner.Steps.{GivesExactly};

use crate::fault::{JobFault, Key};
use crate::table::value_at;
use crate::view::JobView;
use lattice::{Axis, Cut, CutFault, ViewSpec};
use toml::{Table, Value};

/// The axis of this name.
pub fn axis_of(text: &str) -> Option<Axis>
    ensures { result ≡ look_up axes text.now }
{
    match text {
        "x" => Some(Axis::X),
        "y" => Some(Axis::Y),
        "z" => Some(Axis::Z),
        _ => None,
    }
}

/// The viewer looks from the high side of the axis, or from the low one.
pub fn is_from_high(text: &str) -> Option<bool>
    ensures { result ≡ look_up sides text.now }
{
    match text {
        "high" => Some(true),
        "low" => Some(false),
        _ => None,
    }
}

/// The place at the key `at`.
fn place_in(table: &Table) -> Option<i64>
    ensures { result ≡ option_and_then as_integer (get_member (codes "at") (table_view table.now)) }
{
    value_at(table, "at").and_then(Value::as_integer)
}

/// The side at the key `from`.
fn side_in(table: &Table) -> Option<bool>
    ensures { result ≡ option_and_then (look_up sides) (option_and_then as_str (get_member (codes "from") (table_view table.now))) }
{
    value_at(table, "from")
        .and_then(Value::as_str)
        .and_then(is_from_high)
}

/// The cut of the view with this number.
fn cut_at(number: u32, axis: Axis, at: i64, from_high: bool) -> Result<Cut, JobFault>
    ensures { GivesExactly plane_of result (plane_at number axis at from_high) }
{
    match Cut::new(axis, at, from_high) {
        Ok(cut) => Ok(cut),
        Err(CutFault::CutRange) => Err(JobFault::CutRange(number)),
    }
}

/// The view with this number, of a cut across the axis that is named, at the place and from the side of its table.
pub fn cut_view(number: u32, cut: &Value, table: &Table) -> Result<JobView, JobFault>
    ensures value { GivesExactly view_seen result (cut_view number (view cut.now) (get_member (codes "at") (table_view table.now)) (get_member (codes "from") (table_view table.now))) }
    ensures unnamed { IfOk result (λ v. v.named ≡ None) }
{
    let Some(axis) = cut.as_str().and_then(axis_of) else {
        return Err(JobFault::Wrong(Key::Cut));
    };
    let Some(at) = place_in(table) else {
        return Err(JobFault::Wrong(Key::At));
    };
    let Some(from_high) = side_in(table) else {
        return Err(JobFault::Wrong(Key::From));
    };
    Ok(JobView {
        spec: ViewSpec::Section(cut_at(number, axis, at, from_high)?),
        named: None,
    })
}
