// The keys of a job of version 3, and which values they may have.
ghost use Rattle.std.specs.Prelude.{◌≡◌};
ghost use Rattle.job_file.specs.Steps.{look_up};
ghost use Rattle.job_text.specs.Seen.{written_seen};
ghost use Rattle.sheet_job.specs.SheetKeys.{job_keys, block_keys, view_keys, key_named, is_right, is_right_bare, is_quoted};

use crate::numbers::{decimals_digit, decimals_in, is_length, length_in, toward_in};
use crate::values::{
    axis_in, crease_in, flag_of, hidden_in, is_fit, layout_in, name_in, paper_in, projection_in,
    scale_in, side_in, text_of, title_of, unit_in,
};
use job_tables::TableKind;
use job_text::Written;

/// A key of a job of version 3.
#[derive(Clone, Copy, PartialEq, Eq, Debug)]
pub enum SheetKey {
    // Of the job.
    Version,
    Title,
    Unit,
    Decimals,
    Sheet,
    Layout,
    Angle,
    Scale,
    Crease,
    Hidden,
    // Of `[block]`.
    Number,
    /// `type`
    Kind,
    Material,
    Author,
    Approved,
    Date,
    Revision,
    Company,
    Tolerances,
    Note,
    // Of a `[[view]]`.
    Name,
    Toward,
    Cut,
    At,
    From,
    /// `title`
    CutTitle,
    /// `hidden`
    HiddenHere,
}

/// The job's key of this name.
fn job_key(name: &str) -> Option<SheetKey>
    ensures { result ≡ look_up job_keys name.now }
{
    match name {
        "version" => Some(SheetKey::Version),
        "title" => Some(SheetKey::Title),
        "unit" => Some(SheetKey::Unit),
        "decimals" => Some(SheetKey::Decimals),
        "sheet" => Some(SheetKey::Sheet),
        "layout" => Some(SheetKey::Layout),
        "angle" => Some(SheetKey::Angle),
        "scale" => Some(SheetKey::Scale),
        "crease" => Some(SheetKey::Crease),
        "hidden" => Some(SheetKey::Hidden),
        _ => None,
    }
}

/// The key of this name of the title block.
fn block_key(name: &str) -> Option<SheetKey>
    ensures { result ≡ look_up block_keys name.now }
{
    match name {
        "number" => Some(SheetKey::Number),
        "type" => Some(SheetKey::Kind),
        "material" => Some(SheetKey::Material),
        "author" => Some(SheetKey::Author),
        "approved" => Some(SheetKey::Approved),
        "date" => Some(SheetKey::Date),
        "revision" => Some(SheetKey::Revision),
        "company" => Some(SheetKey::Company),
        "tolerances" => Some(SheetKey::Tolerances),
        "note" => Some(SheetKey::Note),
        _ => None,
    }
}

/// The key of this name of a view.
fn view_key(name: &str) -> Option<SheetKey>
    ensures { result ≡ look_up view_keys name.now }
{
    match name {
        "name" => Some(SheetKey::Name),
        "toward" => Some(SheetKey::Toward),
        "cut" => Some(SheetKey::Cut),
        "at" => Some(SheetKey::At),
        "from" => Some(SheetKey::From),
        "title" => Some(SheetKey::CutTitle),
        "hidden" => Some(SheetKey::HiddenHere),
        _ => None,
    }
}

/// The key of this name of such a table.
pub(crate) fn key_named(kind: TableKind, name: &str) -> Option<SheetKey>
    ensures { result ≡ key_named kind name.now }
{
    match kind {
        TableKind::Job => job_key(name),
        TableKind::Block => block_key(name),
        TableKind::View => view_key(name),
    }
}

/// The key may have the value. The version isn't read here: it is 3.
pub(crate) fn is_right(key: SheetKey, value: &Written) -> bool
    ensures { result ≡ is_right key (written_seen value.now) }
{
    match key {
        SheetKey::Version => true,
        SheetKey::Unit => unit_in(value).is_some(),
        SheetKey::Decimals => decimals_in(value).is_some(),
        SheetKey::Sheet => paper_in(value).is_some() || is_fit(value),
        SheetKey::Layout => layout_in(value).is_some(),
        SheetKey::Angle => projection_in(value).is_some(),
        SheetKey::Scale => scale_in(value).is_some(),
        SheetKey::Crease => crease_in(value).is_some(),
        SheetKey::Hidden => hidden_in(value).is_some(),
        SheetKey::Name => name_in(value).is_some(),
        SheetKey::Toward => toward_in(value).is_some(),
        SheetKey::Cut => axis_in(value).is_some(),
        SheetKey::At => length_in(value).is_some(),
        SheetKey::From => side_in(value).is_some(),
        SheetKey::HiddenHere => flag_of(value).is_some(),
        SheetKey::Title
        | SheetKey::CutTitle
        | SheetKey::Number
        | SheetKey::Kind
        | SheetKey::Material
        | SheetKey::Author
        | SheetKey::Approved
        | SheetKey::Date
        | SheetKey::Revision
        | SheetKey::Company
        | SheetKey::Tolerances
        | SheetKey::Note => title_of(value).is_some(),
    }
}

/// The key may have the value that the text is without quotes.
fn is_right_bare(key: SheetKey, text: &str) -> bool
    ensures { result ≡ is_right_bare key text.now }
{
    match key {
        SheetKey::Decimals => decimals_digit(text.as_bytes()).is_some(),
        SheetKey::At => is_length(text.as_bytes()),
        SheetKey::HiddenHere => text == "true" || text == "false",
        _ => false,
    }
}

/// A text that the key may have without its quotes.
pub(crate) fn is_quoted(key: SheetKey, value: &Written) -> bool
    ensures { result ≡ is_quoted key (written_seen value.now) }
{
    match text_of(value) {
        Some(text) => is_right_bare(key, text),
        None => false,
    }
}
