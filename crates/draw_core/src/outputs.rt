// The files of a drawing: its SVG, and a text for each output of its job.
ghost use Rattle.std.specs.Prelude.{◌≡◌, ◌+◌, ◌<◌, Some, IsSome, IfOk, length, slice_get, option_map};
ghost use Rattle.plot_rack.specs.Plotters.{text_of};
ghost use Rattle.plot_rack.specs.Racks.{boxes_of};
ghost use Rattle.draw_core.specs.Outputs.{stem_of, plot_name, place_of};
ghost use Rattle.draw_core.specs.Lines.{write_line};
ghost use Rattle.fault_lines.specs.Told.{text_of as line_text};

use crate::lines::draw_line;
use dec_text::Name;
use exact_frac::OutOfMemory;
use fault_lines::Line;
use part_input::{Fault, Target};
use plot_rack::{Plotter, Rack};
use std::alloc::Global;

/// A file of a drawing: what it is, its name and its bytes, and the line that tells that it couldn't be written.
#[derive(Drop)]
pub(crate) struct Output {
    pub(crate) target: Target,
    pub(crate) name: Name,
    pub(crate) bytes: Vec<u8>,
    pub(crate) line: Line,
    ghost told: { line_text line ≡ write_line target },
}

/// A file with the line that tells its fault of writing.
pub(crate) fn output_with_line(
    alloc: Global,
    target: Target,
    name: Name,
    bytes: Vec<u8>,
) -> Result<Output, OutOfMemory>
    ensures target { IfOk result (λ o. o.target ≡ target) }
    ensures name { IfOk result (λ o. o.name ≡ name) }
    ensures bytes { IfOk result (λ o. o.bytes.items ≡ bytes.items) }
{
    let line = draw_line(alloc, &Fault::WriteFault(target))?;
    Ok(Output {
        target,
        name,
        bytes,
        line,
    })
}

/// A name without a last `.svg`.
fn stem_of(name: &str) -> &str
    ensures { result.now ≡ stem_of name.now }
{
    match name.strip_suffix(".svg") {
        Some(stem) => stem,
        None => name,
    }
}

/// The name of a plotter's file.
fn plot_name(alloc: Global, out: &str, suffix: &str) -> Result<Name, OutOfMemory>
    ensures { IfOk result (λ name. name ≡ plot_name out.now suffix.now) }
{
    let stem = stem_of(out);
    let text = format!(in alloc; "{stem}.{suffix}")?;
    Name::new(alloc, text.as_str())
}

/// The file of a plotter that has drawn.
pub(crate) fn plot_output(
    alloc: Global,
    out: &str,
    rack: &Rack,
    number: u32,
) -> Result<Output, OutOfMemory>
    requires within { number < length (boxes_of rack.now) }
    requires begun { (b : _) → slice_get (boxes_of rack.now) number ≡ Some b → IsSome (plot (b.vtable, b.value)).page }
    ensures place { IfOk result (λ o. place_of o.target ≡ Some (number + 1)) }
    ensures name { IfOk result (λ o. option_map (λ b. plot_name out.now (plot (b.vtable, b.value)).suffix) (slice_get (boxes_of rack.now) number) ≡ Some o.name) }
    ensures bytes { IfOk result (λ o. option_map (λ b. text_of (plot (b.vtable, b.value))) (slice_get (boxes_of rack.now) number) ≡ Some (Some o.bytes.items)) }
{
    let name = plot_name(alloc, out, rack.suffix(number))?;
    let bytes = Vec::from_slice(alloc, rack.text(number))?;
    output_with_line(alloc, Target::Plot(number), name, bytes)
}
