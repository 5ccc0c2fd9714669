// What a value of a line means.
ghost use Rattle.std.specs.Prelude.{◌≡◌, IfSome, IsTrue, option_map, option_copied};
ghost use Rattle.job_file.specs.CutKeys.{axes, sides};
ghost use Rattle.job_file.specs.Documents.{angles, creases, fits, layouts, lengths};
ghost use Rattle.job_file.specs.Names.{principals};
ghost use Rattle.job_file.specs.Papers.{papers};
ghost use Rattle.job_file.specs.Seen.{scale_seen};
ghost use Rattle.job_file.specs.Steps.{look_up};
ghost use Rattle.job_file.specs.Texts.{is_title};
ghost use Rattle.job_text.specs.Seen.{written_seen};
ghost use Rattle.sheet_job.specs.WrittenValues.{text_in, flag_in, is_fit, choice_in, title_in, hiddens};

use crate::hidden::Hidden;
use dec_text::Length;
use job_file::{
    Paper, Principal, Scale, angle_of, axis_of, crease_of, is_from_high, is_title, layout_of,
    length_of, paper_of, principal_of, scale_of,
};
use job_text::{TextItem, Written};
use lattice::{Axis, Crease};

/// The text that the value is.
pub(crate) fn text_of(value: &Written) -> Option<&str>
    ensures { option_copied result ≡ text_in (written_seen value.now) }
{
    match value {
        Written::One(TextItem::Text(text)) => Some(text.as_str()),
        _ => None,
    }
}

/// True or false.
pub(crate) fn flag_of(value: &Written) -> Option<bool>
    ensures { result ≡ flag_in (written_seen value.now) }
{
    match value {
        Written::One(TextItem::Flag(flag)) => Some(*flag),
        _ => None,
    }
}

/// The text "fit".
pub(crate) fn is_fit(value: &Written) -> bool
    ensures { result ≡ is_fit (written_seen value.now) }
{
    match text_of(value) {
        Some(text) => text == "fit",
        None => false,
    }
}

/// The title that the value is.
pub(crate) fn title_of(value: &Written) -> Option<&str>
    ensures value { option_copied result ≡ title_in (written_seen value.now) }
    ensures proper { IfSome result (λ t. IsTrue (is_title t.now)) }
{
    match text_of(value) {
        Some(text) if is_title(text) => Some(text),
        _ => None,
    }
}

/// In which views hidden lines are drawn.
fn hidden_of(text: &str) -> Option<Hidden>
    ensures { result ≡ look_up hiddens text.now }
{
    match text {
        "all" => Some(Hidden::All),
        "plain" => Some(Hidden::Plain),
        "none" => Some(Hidden::Never),
        _ => None,
    }
}

/// In which views hidden lines are drawn.
pub(crate) fn hidden_in(value: &Written) -> Option<Hidden>
    ensures { result ≡ choice_in hiddens (written_seen value.now) }
{
    match text_of(value) {
        Some(text) => hidden_of(text),
        None => None,
    }
}

/// What lengths are given in.
pub(crate) fn unit_in(value: &Written) -> Option<Length>
    ensures { result ≡ choice_in lengths (written_seen value.now) }
{
    match text_of(value) {
        Some(text) => length_of(text),
        None => None,
    }
}

/// A size of paper.
pub(crate) fn paper_in(value: &Written) -> Option<Paper>
    ensures { result ≡ choice_in papers (written_seen value.now) }
{
    match text_of(value) {
        Some(text) => paper_of(text),
        None => None,
    }
}

/// Upright, or lying.
pub(crate) fn layout_in(value: &Written) -> Option<bool>
    ensures { result ≡ choice_in layouts (written_seen value.now) }
{
    match text_of(value) {
        Some(text) => layout_of(text),
        None => None,
    }
}

/// Third-angle projection, or not.
pub(crate) fn projection_in(value: &Written) -> Option<bool>
    ensures { result ≡ choice_in angles (written_seen value.now) }
{
    match text_of(value) {
        Some(text) => angle_of(text),
        None => None,
    }
}

/// A scale, or none for one that fits.
pub(crate) fn scale_in(value: &Written) -> Option<Option<Scale>>
    ensures { option_map (option_map scale_seen) result ≡ choice_in fits (written_seen value.now) }
{
    match text_of(value) {
        Some(text) => scale_of(text),
        None => None,
    }
}

/// A kind of creases.
pub(crate) fn crease_in(value: &Written) -> Option<Crease>
    ensures { result ≡ choice_in creases (written_seen value.now) }
{
    match text_of(value) {
        Some(text) => crease_of(text),
        None => None,
    }
}

/// The view of a name.
pub(crate) fn name_in(value: &Written) -> Option<Principal>
    ensures { result ≡ choice_in principals (written_seen value.now) }
{
    match text_of(value) {
        Some(text) => principal_of(text),
        None => None,
    }
}

/// The axis that a cut is across.
pub(crate) fn axis_in(value: &Written) -> Option<Axis>
    ensures { result ≡ choice_in axes (written_seen value.now) }
{
    match text_of(value) {
        Some(text) => axis_of(text),
        None => None,
    }
}

/// The viewer looks from the high side of the axis, or from the low one.
pub(crate) fn side_in(value: &Written) -> Option<bool>
    ensures { result ≡ choice_in sides (written_seen value.now) }
{
    match text_of(value) {
        Some(text) => is_from_high(text),
        None => None,
    }
}
