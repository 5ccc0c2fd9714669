// What is wrong with a job.
ghost use Rattle.std.specs.Prelude.{◌≡◌, IfOk, codes, string_bytes};
ghost use Rattle.svg_page.specs.Texts.{◌⊕◌};
ghost use Rattle.fault_lines.specs.Lines.{shown};
ghost use Rattle.sheet_core.specs.Refusals.{allowed, belongs_text, is_of_job, is_of_view, job_text, newer_text};

use fault_lines::{axis_text, key_text, shown};
use job_file::{JobFault, Key};
use lattice::Axis;
use std::alloc::{AllocError, Global};

// What is allowed for a key.
fn allowed(key: &Key) -> &'static str
    ensures { result.now ≡ allowed key.now }
{
    match key {
        Key::Version => "1, 2 or 3",
        Key::Decimals => "0 to 6",
        Key::Angle => "\"first\" or \"third\"",
        Key::Sheet => "\"A0\", \"A1\", \"A2\", \"A3\" or \"A4\"",
        Key::Scale => {
            "one of \"50:1\", \"20:1\", \"10:1\", \"5:1\", \"2:1\", \"1:1\", \"1:2\", \"1:5\", \"1:10\", \"1:20\", \"1:50\", \"1:100\", or \"fit\""
        }
        Key::Crease => "\"fine\", \"normal\" or \"coarse\"",
        Key::Title => {
            "a text of at most 120 bytes, without bytes below 32, the byte 127, U+FFFE and U+FFFF"
        }
        Key::Outputs => {
            "at most 8 different texts of 1 to 16 bytes from a to z and 0 to 9, none of them \"svg\""
        }
        Key::Unit => "\"mm\" or \"inch\"",
        Key::Layout => "\"landscape\" or \"portrait\"",
        Key::View => "1 to 12 tables, each with exactly one of name, toward and cut",
        Key::Name => {
            "\"front\", \"back\", \"left\", \"right\", \"above\" or \"below\", each at most once"
        }
        Key::Toward => "three whole numbers from -9 to 9, not all 0",
        Key::Cut => "\"x\", \"y\" or \"z\", with at and from beside it",
        Key::At => {
            "a whole number of units from -1048576 to 1048576; with 3 decimals a unit is 0.001 mm, and 22.5 mm is 22500"
        }
        Key::From => "\"high\" or \"low\"",
    }
}

fn wrong_text(alloc: Global, key: &Key) -> Result<String, AllocError>
    ensures { IfOk result (λ text. string_bytes text ≡ job_text (JobFault.Wrong key.now)) }
{
    let (name, allowed) = (key_text(key), allowed(key));
    format!(in alloc; "wrong {name}: {allowed}")
}

fn version_text(alloc: Global, n: i64) -> Result<String, AllocError>
    ensures { IfOk result (λ text. string_bytes text ≡ job_text (JobFault.Version n)) }
{
    format!(in alloc; "version {n}: 1, 2 and 3 are known")
}

// It is a key that a job has itself, so it is unknown in a view.
fn is_of_job(name: &str) -> bool
    ensures { result ≡ is_of_job name.now }
{
    match name {
        "version" => true,
        "decimals" => true,
        "angle" => true,
        "sheet" => true,
        "scale" => true,
        "crease" => true,
        "title" => true,
        "outputs" => true,
        _ => false,
    }
}

// It is a key that a view has, so it is unknown before the first view.
fn is_of_view(name: &str) -> bool
    ensures { result ≡ is_of_view name.now }
{
    match name {
        "name" => true,
        "toward" => true,
        "cut" => true,
        "at" => true,
        "from" => true,
        _ => false,
    }
}

// Where a key belongs that is unknown at its place, or which versions have it.
fn belongs_text(name: &str) -> &'static str
    ensures { result.now ≡ belongs_text name.now }
{
    if is_of_job(name) {
        return ": it belongs before the first [[view]]";
    }
    if is_of_view(name) {
        return ": it belongs in a [[view]]";
    }
    newer_text(name)
}

// Which versions have a key that older ones don't have.
fn newer_text(name: &str) -> &'static str
    ensures { result.now ≡ newer_text name.now }
{
    match name {
        "unit" => ": versions 2 and 3 have it, before the first [[view]]",
        "layout" => ": versions 2 and 3 have it, before the first [[view]]",
        "hidden" => ": version 3 has it",
        "block" => ": version 3 has it",
        _ => "",
    }
}

fn unknown_text(alloc: Global, name: &str) -> Result<String, AllocError>
    ensures { IfOk result (λ text. string_bytes text ≡ codes "unknown key " ⊕ shown name.now ⊕ belongs_text name.now) }
{
    let key = shown(alloc, name)?;
    let belongs = belongs_text(name);
    format!(in alloc; "unknown key {key}{belongs}")
}

// An output without a plotter.
pub(crate) fn plotter_text(alloc: Global, name: &str) -> Result<String, AllocError>
    ensures { IfOk result (λ text. string_bytes text ≡ codes "no plotter " ⊕ shown name.now) }
{
    let name = shown(alloc, name)?;
    format!(in alloc; "no plotter {name}")
}

fn zero_text(alloc: Global, view: u32) -> Result<String, AllocError>
    ensures { IfOk result (λ text. string_bytes text ≡ job_text (JobFault.ZeroDirection view)) }
{
    format!(in alloc; "view {view}: zero direction")
}

fn range_text(alloc: Global, view: u32, axis: &Axis) -> Result<String, AllocError>
    ensures { IfOk result (λ text. string_bytes text ≡ job_text (JobFault.DirectionRange view axis.now)) }
{
    let axis = axis_text(axis);
    format!(in alloc; "view {view}: direction {axis} outside -9 to 9")
}

fn cut_text(alloc: Global, view: u32) -> Result<String, AllocError>
    ensures { IfOk result (λ text. string_bytes text ≡ job_text (JobFault.CutRange view)) }
{
    format!(in alloc; "view {view}: cut outside -1048576 to 1048576")
}

// What is wrong with a job, as a line tells it.
pub(crate) fn job_text(alloc: Global, fault: &JobFault) -> Result<String, AllocError>
    ensures { IfOk result (λ text. string_bytes text ≡ job_text fault.now) }
{
    match fault {
        JobFault::NotToml => String::from_str(alloc, "not TOML"),
        JobFault::Version(n) => version_text(alloc, *n),
        JobFault::UnknownKey(name) => unknown_text(alloc, name.as_str()),
        JobFault::Wrong(key) => wrong_text(alloc, key),
        JobFault::TooManyViews => String::from_str(alloc, "more than 12 views"),
        JobFault::ZeroDirection(view) => zero_text(alloc, *view),
        JobFault::DirectionRange(view, axis) => range_text(alloc, *view, axis),
        JobFault::CutRange(view) => cut_text(alloc, *view),
    }
}
