// The keys of a job with one number or one of a few texts.
ghost use Rattle.std.specs.Prelude.{◌≡◌, ◌≤◌, false, None, IfOk, codes, option_map};
ghost use Rattle.toml.specs.Data.{get_member, as_integer};
ghost use Rattle.toml.specs.View.{table_view};
ghost use Rattle.job_file.specs.Documents.{version_of, version_at, decimals_of, choice, angles, fits, creases, lengths, layouts};
ghost use Rattle.job_file.specs.Papers.{papers};
ghost use Rattle.job_file.specs.Seen.{scale_seen};
ghost use Rattle.job_file.specs.Steps.{look_up, value_or};
ghost use Rattle.job_file.specs.inner.Steps.{GivesExactly};

use crate::fault::{JobFault, Key};
use crate::job::{Paper, Scale};
use crate::table::{Kind, value_at};
use dec_text::Length;
use lattice::Crease;
use toml::Table;

/// What kind of table a job of this version is.
fn version_of(value: Option<i64>) -> Result<Kind, JobFault>
    ensures { result ≡ version_of value }
{
    match value {
        None => Err(JobFault::Wrong(Key::Version)),
        Some(1) => Ok(Kind::JobOne),
        Some(2) => Ok(Kind::JobTwo),
        Some(n) => Err(JobFault::Version(n)),
    }
}

/// What kind of table the job is, by its version.
pub fn version(table: &Table) -> Result<Kind, JobFault>
    ensures { result ≡ version_at (get_member (codes "version") (table_view table.now)) }
{
    match value_at(table, "version") {
        None => Ok(Kind::JobOne),
        Some(value) => version_of(value.as_integer()),
    }
}

/// The number of decimals, 0 to 6.
fn decimals_of(value: Option<i64>) -> Option<u8>
    ensures { result ≡ decimals_of value }
{
    match value {
        Some(n) if 0 <= n && n <= 6 => Some(n as u8),
        _ => None,
    }
}

/// The job's number of decimals.
pub fn decimals(table: &Table) -> Result<u8, JobFault>
    ensures value { result ≡ value_or 3 Key.Decimals (λ d. decimals_of (as_integer d)) (get_member (codes "decimals") (table_view table.now)) }
    ensures few { IfOk result (λ n. n ≤ 6) }
{
    match value_at(table, "decimals") {
        None => Ok(3),
        Some(value) => decimals_of(value.as_integer()).ok_or(JobFault::Wrong(Key::Decimals)),
    }
}

/// Third-angle projection, or not.
pub fn angle_of(text: &str) -> Option<bool>
    ensures { result ≡ look_up angles text.now }
{
    match text {
        "first" => Some(false),
        "third" => Some(true),
        _ => None,
    }
}

/// The job's projection.
pub fn angle(table: &Table) -> Result<bool, JobFault>
    ensures { result ≡ value_or false Key.Angle (choice angles) (get_member (codes "angle") (table_view table.now)) }
{
    match value_at(table, "angle") {
        None => Ok(false),
        Some(value) => value
            .as_str()
            .and_then(angle_of)
            .ok_or(JobFault::Wrong(Key::Angle)),
    }
}

/// A size of paper.
pub fn paper_of(text: &str) -> Option<Paper>
    ensures { result ≡ look_up papers text.now }
{
    match text {
        "A0" => Some(Paper::A0),
        "A1" => Some(Paper::A1),
        "A2" => Some(Paper::A2),
        "A3" => Some(Paper::A3),
        "A4" => Some(Paper::A4),
        _ => None,
    }
}

/// The job's paper.
pub fn paper(table: &Table) -> Result<Paper, JobFault>
    ensures { result ≡ value_or Paper.A3 Key.Sheet (choice papers) (get_member (codes "sheet") (table_view table.now)) }
{
    match value_at(table, "sheet") {
        None => Ok(Paper::A3),
        Some(value) => value
            .as_str()
            .and_then(paper_of)
            .ok_or(JobFault::Wrong(Key::Sheet)),
    }
}

/// A scale, or none for one that fits.
pub fn scale_of(text: &str) -> Option<Option<Scale>>
    ensures { option_map (option_map scale_seen) result ≡ look_up fits text.now }
{
    if text == "fit" {
        return Some(None);
    }
    match Scale::of(text) {
        Some(scale) => Some(Some(scale)),
        None => None,
    }
}

/// The job's scale.
pub fn scale(table: &Table) -> Result<Option<Scale>, JobFault>
    ensures { GivesExactly (option_map scale_seen) result (value_or None Key.Scale (choice fits) (get_member (codes "scale") (table_view table.now))) }
{
    match value_at(table, "scale") {
        None => Ok(None),
        Some(value) => value
            .as_str()
            .and_then(scale_of)
            .ok_or(JobFault::Wrong(Key::Scale)),
    }
}

/// A kind of creases.
pub fn crease_of(text: &str) -> Option<Crease>
    ensures { result ≡ look_up creases text.now }
{
    match text {
        "fine" => Some(Crease::Fine),
        "normal" => Some(Crease::Normal),
        "coarse" => Some(Crease::Coarse),
        _ => None,
    }
}

/// The job's creases.
pub fn crease(table: &Table) -> Result<Crease, JobFault>
    ensures { result ≡ value_or Crease.Normal Key.Crease (choice creases) (get_member (codes "crease") (table_view table.now)) }
{
    match value_at(table, "crease") {
        None => Ok(Crease::Normal),
        Some(value) => value
            .as_str()
            .and_then(crease_of)
            .ok_or(JobFault::Wrong(Key::Crease)),
    }
}

/// What lengths are given in.
pub fn length_of(text: &str) -> Option<Length>
    ensures { result ≡ look_up lengths text.now }
{
    match text {
        "mm" => Some(Length::Millimetre),
        "inch" => Some(Length::Inch),
        _ => None,
    }
}

/// What the part's lengths are given in.
pub fn unit(table: &Table) -> Result<Length, JobFault>
    ensures { result ≡ value_or Length.Millimetre Key.Unit (choice lengths) (get_member (codes "unit") (table_view table.now)) }
{
    match value_at(table, "unit") {
        None => Ok(Length::Millimetre),
        Some(value) => value
            .as_str()
            .and_then(length_of)
            .ok_or(JobFault::Wrong(Key::Unit)),
    }
}

/// Upright, or lying.
pub fn layout_of(text: &str) -> Option<bool>
    ensures { result ≡ look_up layouts text.now }
{
    match text {
        "landscape" => Some(false),
        "portrait" => Some(true),
        _ => None,
    }
}

/// Whether the job's sheet stands upright.
pub fn portrait(table: &Table) -> Result<bool, JobFault>
    ensures { result ≡ value_or false Key.Layout (choice layouts) (get_member (codes "layout") (table_view table.now)) }
{
    match value_at(table, "layout") {
        None => Ok(false),
        Some(value) => value
            .as_str()
            .and_then(layout_of)
            .ok_or(JobFault::Wrong(Key::Layout)),
    }
}
