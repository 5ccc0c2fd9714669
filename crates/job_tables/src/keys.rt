// The keys of a job's tables.
ghost use Rattle.std.specs.Prelude.{◌≡◌, map};
ghost use Rattle.job_tables.specs.Keys.{known_keys, is_known};

use crate::table::TableKind;

const JOB_KEYS: [&str; 10] = [
    "version", "title", "unit", "decimals", "sheet", "layout", "angle", "scale", "crease", "hidden",
];

const BLOCK_KEYS: [&str; 10] = [
    "number",
    "type",
    "material",
    "author",
    "approved",
    "date",
    "revision",
    "company",
    "tolerances",
    "note",
];

const VIEW_KEYS: [&str; 7] = ["name", "toward", "cut", "at", "from", "title", "hidden"];

/// The keys of a table, in their order.
pub fn known_keys(kind: TableKind) -> &'static [&'static str]
    ensures { map (λ key. key.now) result.now ≡ known_keys kind }
{
    match kind {
        TableKind::Job => &JOB_KEYS,
        TableKind::Block => &BLOCK_KEYS,
        TableKind::View => &VIEW_KEYS,
    }
}

/// A table of this kind has the key.
pub(crate) fn is_known(kind: TableKind, key: &str) -> bool
    ensures { result ≡ is_known kind key.now }
{
    known_keys(kind).iter().any(|known| key == *known)
}
