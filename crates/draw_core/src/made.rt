// The files of a drawing, made before the first is kept.
ghost use Rattle.std.specs.Prelude.{◌≡◌, ℕ, Some, IsSome, IfOk, slice_get};
ghost use Rattle.plot_rack.specs.Racks.{boxes_of};
ghost use Rattle.draw_core.specs.inner.Made.{AreOutputs};

use crate::outputs::{Output, output_with_line, plot_output};
use dec_text::Name;
use exact_frac::OutOfMemory;
use part_input::Target;
use plot_rack::{Plotter, Rack};
use std::alloc::Global;

/// The files of a drawing with this name and text, whose plotters have drawn.
pub(crate) fn outputs_of(
    alloc: Global,
    out: Name,
    text: Vec<u8>,
    rack: &Rack,
) -> Result<Vec<Output>, OutOfMemory>
    requires { (i : ℕ) (b : _) → slice_get (boxes_of rack.now) i ≡ Some b → IsSome (plot (b.vtable, b.value)).page }
    ensures { IfOk result (λ outputs. AreOutputs (λ b. plot (b.vtable, b.value)) out text.items (boxes_of rack.now) outputs.items) }
{
    let mut outputs = Vec::new(alloc);
    outputs.push(output_with_line(alloc, Target::Out, Name::new(alloc, out.as_str())?, text)?)?;
    for number in 0..rack.len() {
        outputs.push(plot_output(alloc, out.as_str(), rack, number)?)?;
    }
    Ok(outputs)
}
