// What the tables of a document have at their keys.
ghost use Rattle.std.specs.Prelude.{◌≡◌, option_map, option_copied};
ghost use Rattle.std.specs.List.{list_any};
ghost use Rattle.std.specs.Str.{bytes_eq};
ghost use Rattle.toml.specs.Data.{get_member};
ghost use Rattle.toml.specs.View.{view, table_view};
ghost use Rattle.job_file.specs.Keys.{keys_of, unknown_key};

use toml::{Table, Value};

/// What a table describes.
#[derive(Clone, Copy)]
pub enum Kind {
    /// A job of version 1.
    JobOne,
    /// A job of version 2.
    JobTwo,
    View,
}

/// The value at a key.
pub fn value_at<'t>(table: &'t Table, key: &str) -> Option<&'t Value>
    ensures { option_map (λ v. view v.now) result ≡ get_member key.now (table_view table.now) }
{
    table.get(key)
}

/// A table of this kind may have the key.
fn is_key(kind: Kind, key: &str) -> bool
    ensures { result ≡ list_any (bytes_eq key.now) (keys_of kind) }
{
    match kind {
        Kind::JobOne => is_job_key(key),
        Kind::JobTwo => is_job_key(key) || matches!(key, "unit" | "layout"),
        Kind::View => is_view_key(key),
    }
}

/// A job of version 1 may have the key.
fn is_job_key(key: &str) -> bool
    ensures { result ≡ list_any (bytes_eq key.now) (keys_of Kind.JobOne) }
{
    matches!(
        key,
        "version"
            | "decimals"
            | "angle"
            | "sheet"
            | "scale"
            | "crease"
            | "title"
            | "outputs"
            | "view"
    )
}

/// A view may have the key.
fn is_view_key(key: &str) -> bool
    ensures { result ≡ list_any (bytes_eq key.now) (keys_of Kind.View) }
{
    matches!(key, "name" | "toward" | "cut" | "at" | "from")
}

/// The least key that no table of this kind has, in the order of the bytes: the first one, since keys ascend. The time goes
/// with the number of keys.
pub fn unknown_key(kind: Kind, table: &Table) -> Option<&str>
    ensures { option_copied result ≡ unknown_key kind (table_view table.now) }
{
    for key in table.keys() {
        if !is_key(kind, key.as_str()) {
            return Some(key.as_str());
        }
    }
    None
}
