// The line that a fault is told by.
ghost use Rattle.std.specs.Prelude.{◌≡◌, ◌<◌, ◌≤◌, length, IfOk, IsOk, codes, string_bytes};
ghost use Rattle.svg_page.specs.Texts.{◌⊕◌};
ghost use Rattle.fault_lines.specs.Lines.{shown_byte, shown, key_text, axis_text, job_line, read_line, write_line, HasNoNumberOrName, word_text, want_text, kind_text, part_line, mesh_line, sheet_line, fault_line, NamesNothing};
ghost use Rattle.fault_lines.specs.Told.{text_of};

use crate::fixed::{fixed, fixed_with};
use crate::line::Line;
use job_file::{JobFault, Key};
use lattice::Axis;
use part_input::{Fault, Input, Target};
use solid_mesh::MeshFault;
use std::alloc::{AllocError, Global};
use weld::{PartFault, PartKind, Want, Word};

/// The line of a fault, in a program with this name and usage. It takes memory only where the fault has a number or a name.
pub fn line_of(alloc: Global, program: &str, usage: &str, fault: &Fault) -> Result<Line, AllocError>
    requires name { length program.now ≤ 16 }
    requires usage { length usage.now ≤ 64 }
    ensures line { IfOk result (λ line. text_of line ≡ fault_line program.now usage.now fault.now) }
    ensures fixed { NamesNothing fault.now → IsOk result }
{
    match fault {
        Fault::Part(fault) => Ok(Line::Made(part_line(alloc, program, fault)?)),
        Fault::Mesh(fault) => Ok(Line::Made(mesh_line(alloc, program, fault)?)),
        Fault::Usage => Ok(fixed_with(program, ": usage: ", usage)),
        Fault::ReadFault(input) => Ok(read_line(program, input)),
        Fault::JobTooLong => Ok(fixed(program, ": job: more than 65536 bytes\n")),
        Fault::Job(fault) => job_line(alloc, program, fault),
        Fault::NoPlotter(name) => Ok(Line::Made(plotter_line(alloc, program, name.as_str())?)),
        Fault::SampleRange => Ok(fixed(program, ": sample: outside 1 to 8\n")),
        Fault::PartTooLong => Ok(fixed(program, ": part: more than 16777216 bytes\n")),
        Fault::Nothing => Ok(fixed(program, ": part: no triangle\n")),
        Fault::DoesNotFit {
            need_w,
            need_h,
            have_w,
            have_h,
        } => Ok(Line::Made(sheet_line(alloc, program, *need_w, *need_h, *have_w, *have_h)?)),
        Fault::WriteFault(target) => write_line(alloc, program, *target),
        Fault::Memory => Ok(fixed(program, ": out of memory\n")),
    }
}

fn read_line(program: &str, input: &Input) -> Line
    requires { length program.now ≤ 16 }
    ensures { text_of result ≡ read_line program.now input.now }
{
    match input {
        Input::Job => fixed(program, ": cannot read the job\n"),
        Input::Part => fixed(program, ": cannot read the part\n"),
    }
}

fn plot_line(alloc: Global, program: &str, number: u32) -> Result<String, AllocError>
    ensures { IfOk result (λ line. string_bytes line ≡ write_line program.now (Target.Plot number)) }
{
    format!(in alloc; "{program}: cannot write plot {number}\n")
}

// The line of a fault of writing. It takes memory only where the target has a number.
fn write_line(alloc: Global, program: &str, target: Target) -> Result<Line, AllocError>
    requires { length program.now ≤ 16 }
    ensures line { IfOk result (λ line. text_of line ≡ write_line program.now target) }
    ensures fixed { NamesNothing (Fault.WriteFault target) → IsOk result }
{
    match target {
        Target::Out => Ok(fixed(program, ": cannot write the drawing\n")),
        Target::Plot(number) => Ok(Line::Made(plot_line(alloc, program, number)?)),
        Target::Summary => Ok(fixed(program, ": cannot write the summary\n")),
    }
}

// The character that a byte of a name is told by.
fn shown_char(byte: u8) -> char
    ensures value { result ≡ shown_byte byte }
    ensures ascii { result < 128 }
{
    if 32 <= byte && byte <= 126 {
        byte as char
    } else {
        '?'
    }
}

/// Bytes as they are told: a question mark stands for each that isn't printable ASCII.
pub fn shown_bytes(alloc: Global, bytes: &[u8]) -> Result<String, AllocError>
    ensures { IfOk result (λ text. string_bytes text ≡ shown bytes.now) }
{
    let mut text = String::new(alloc);
    for byte in bytes {
        text.push(shown_char(*byte))?;
    }
    Ok(text)
}

/// A name as it is told.
pub fn shown(alloc: Global, name: &str) -> Result<String, AllocError>
    ensures { IfOk result (λ text. string_bytes text ≡ shown name.now) }
{
    shown_bytes(alloc, name.as_bytes())
}

fn plotter_line(alloc: Global, program: &str, name: &str) -> Result<String, AllocError>
    ensures { IfOk result (λ line. string_bytes line ≡ program.now ⊕ codes ": no plotter " ⊕ shown name.now ⊕ codes "\n") }
{
    let name = shown(alloc, name)?;
    format!(in alloc; "{program}: no plotter {name}\n")
}

/// A key as it is written in a job.
pub fn key_text(key: &Key) -> &'static str
    ensures value { result.now ≡ key_text key.now }
    ensures size { length result.now ≤ 64 }
{
    match key {
        Key::Version => "version",
        Key::Decimals => "decimals",
        Key::Angle => "angle",
        Key::Sheet => "sheet",
        Key::Scale => "scale",
        Key::Crease => "crease",
        Key::Title => "title",
        Key::Outputs => "outputs",
        Key::Unit => "unit",
        Key::Layout => "layout",
        Key::View => "view",
        Key::Name => "name",
        Key::Toward => "toward",
        Key::Cut => "cut",
        Key::At => "at",
        Key::From => "from",
    }
}

/// An axis by its letter.
pub fn axis_text(axis: &Axis) -> &'static str
    ensures { result.now ≡ axis_text axis.now }
{
    match axis {
        Axis::X => "x",
        Axis::Y => "y",
        Axis::Z => "z",
    }
}

fn unknown_line(alloc: Global, program: &str, name: &str) -> Result<String, AllocError>
    ensures { IfOk result (λ line. string_bytes line ≡ program.now ⊕ codes ": job: unknown key " ⊕ shown name.now ⊕ codes "\n") }
{
    let name = shown(alloc, name)?;
    format!(in alloc; "{program}: job: unknown key {name}\n")
}

fn version_line(alloc: Global, program: &str, n: i64) -> Result<String, AllocError>
    ensures { IfOk result (λ line. string_bytes line ≡ job_line program.now (JobFault.Version n)) }
{
    format!(in alloc; "{program}: job: version {n}\n")
}

fn zero_line(alloc: Global, program: &str, view: u32) -> Result<String, AllocError>
    ensures { IfOk result (λ line. string_bytes line ≡ job_line program.now (JobFault.ZeroDirection view)) }
{
    format!(in alloc; "{program}: job: view {view}: zero direction\n")
}

fn range_line(alloc: Global, program: &str, view: u32, axis: &Axis) -> Result<String, AllocError>
    ensures { IfOk result (λ line. string_bytes line ≡ job_line program.now (JobFault.DirectionRange view axis.now)) }
{
    let axis = axis_text(axis);
    format!(in alloc; "{program}: job: view {view}: direction {axis} outside -9 to 9\n")
}

fn cut_line(alloc: Global, program: &str, view: u32) -> Result<String, AllocError>
    ensures { IfOk result (λ line. string_bytes line ≡ job_line program.now (JobFault.CutRange view)) }
{
    format!(in alloc; "{program}: job: view {view}: cut outside -1048576 to 1048576\n")
}

// The line of a fault of a job. It takes memory only where the fault has a number or a name.
fn job_line(alloc: Global, program: &str, fault: &JobFault) -> Result<Line, AllocError>
    requires { length program.now ≤ 16 }
    ensures line { IfOk result (λ line. text_of line ≡ job_line program.now fault.now) }
    ensures fixed { HasNoNumberOrName fault.now → IsOk result }
{
    match fault {
        JobFault::NotToml => Ok(fixed(program, ": job: not TOML\n")),
        JobFault::Wrong(key) => Ok(fixed_with(program, ": job: wrong ", key_text(key))),
        JobFault::TooManyViews => Ok(fixed(program, ": job: more than 12 views\n")),
        JobFault::Version(n) => Ok(Line::Made(version_line(alloc, program, *n)?)),
        JobFault::UnknownKey(name) => Ok(Line::Made(unknown_line(alloc, program, name.as_str())?)),
        JobFault::ZeroDirection(view) => Ok(Line::Made(zero_line(alloc, program, *view)?)),
        JobFault::DirectionRange(view, axis) => Ok(Line::Made(range_line(
            alloc, program, *view, axis,
        )?)),
        JobFault::CutRange(view) => Ok(Line::Made(cut_line(alloc, program, *view)?)),
    }
}

fn part_line(alloc: Global, program: &str, fault: &PartFault) -> Result<String, AllocError>
    ensures { IfOk result (λ line. string_bytes line ≡ part_line program.now fault.now) }
{
    let kind = kind_text(alloc, &fault.kind)?;
    let line = fault.line;
    format!(in alloc; "{program}: part: line {line}: {kind}\n")
}

fn mesh_line(alloc: Global, program: &str, fault: &MeshFault) -> Result<String, AllocError>
    ensures { IfOk result (λ line. string_bytes line ≡ mesh_line program.now fault.now) }
{
    match fault {
        MeshFault::Flat(t) => format!(in alloc; "{program}: solid: triangle {t} is flat\n"),
        MeshFault::SameWay(a, b) => {
            format!(in alloc; "{program}: solid: triangles {a} and {b} use a side the same way\n")
        }
        MeshFault::Unpaired(t, side) => {
            format!(in alloc; "{program}: solid: side {side} of triangle {t} has no partner\n")
        }
        MeshFault::Double(a, b) => {
            format!(in alloc; "{program}: solid: triangles {a} and {b} have the same corners\n")
        }
        MeshFault::Meet(edge, t) => {
            format!(in alloc; "{program}: solid: edge {edge} meets triangle {t}\n")
        }
    }
}

fn sheet_line(
    alloc: Global,
    program: &str,
    need_w: i64,
    need_h: i64,
    have_w: i64,
    have_h: i64,
) -> Result<String, AllocError>
    ensures { IfOk result (λ line. string_bytes line ≡ sheet_line program.now need_w need_h have_w have_h) }
{
    format!(in alloc; "{program}: sheet: needs {need_w} by {need_h}, has {have_w} by {have_h}\n")
}

/// What is wrong with a text of a part.
pub fn kind_text(alloc: Global, kind: &PartKind) -> Result<String, AllocError>
    ensures { IfOk result (λ text. string_bytes text ≡ kind_text kind.now) }
{
    match kind {
        PartKind::Binary => String::from_str(alloc, "binary"),
        PartKind::Prefixed => String::from_str(alloc, "prefixed OFF"),
        PartKind::Missing(want) => {
            let want = want_text(want);
            format!(in alloc; "missing {want}")
        }
        PartKind::BadNumber => String::from_str(alloc, "bad number"),
        PartKind::TooLarge => String::from_str(alloc, "number too large"),
        PartKind::BadIndex(n) => format!(in alloc; "no vertex {n}"),
        PartKind::FaceSize(n) => format!(in alloc; "face of {n} corners"),
        PartKind::TooMany => String::from_str(alloc, "too many vertices or triangles"),
        PartKind::Trailing => String::from_str(alloc, "text after the last face"),
        PartKind::FaceUnseen(n) => format!(in alloc; "face {n} is not seen whole from a corner"),
        PartKind::Expected(word) => {
            let word = word_text(word);
            format!(in alloc; "expected {word}")
        }
    }
}

fn want_text(want: &Want) -> &'static str
    ensures { result.now ≡ want_text want.now }
{
    match want {
        Want::Count => "count",
        Want::Coordinate => "coordinate",
        Want::FaceSize => "face size",
        Want::Index => "index",
        Want::Normal => "normal",
        Want::Keyword(word) => word_text(word),
    }
}

fn word_text(word: &Word) -> &'static str
    ensures { result.now ≡ word_text word.now }
{
    match word {
        Word::Solid => "solid",
        Word::Facet => "facet or endsolid",
        Word::Normal => "normal",
        Word::Outer => "outer",
        Word::Loop => "loop",
        Word::Vertex => "vertex",
        Word::Endloop => "endloop",
        Word::Endfacet => "endfacet",
    }
}
