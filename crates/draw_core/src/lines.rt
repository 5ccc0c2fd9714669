// The line that the program `draw` tells a fault by.
ghost use Rattle.std.specs.Prelude.{◌≡◌, IfOk, IsOk};
ghost use Rattle.fault_lines.specs.Lines.{NamesNothing};
ghost use Rattle.fault_lines.specs.Told.{text_of};
ghost use Rattle.draw_core.specs.Lines.{fault_line};

use fault_lines::{Line, line_of};
use part_input::Fault;
use std::alloc::{AllocError, Global};

/// The line of want of memory.
pub const MEMORY_LINE: &str = "draw: out of memory\n";

/// The line of a fault. It takes memory only where the fault has a number or a name.
pub(crate) fn draw_line(alloc: Global, fault: &Fault) -> Result<Line, AllocError>
    ensures line { IfOk result (λ line. text_of line ≡ fault_line fault.now) }
    ensures fixed { NamesNothing fault.now → IsOk result }
{
    line_of(alloc, "draw", "draw PART [--job JOB] [--out OUT]", fault)
}
