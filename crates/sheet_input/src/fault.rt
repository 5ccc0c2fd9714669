// Why a run refuses, and the status that it ends with.
ghost use Rattle.std.specs.Prelude.{◌≡◌, refl};

use part_input::{Fault, Target};
use put_texts::RunFault;
use sheet_layout::NoRoom;

/// Why a run refuses.
#[derive(Debug, Drop)]
pub enum SheetFault {
    /// A fault that a run of `draw` has too; one of writing is of the sheet or of the summary.
    Common(Fault),
    /// The job is one of version 3 with a fault, or TOML refuses its text. What is wrong with it is told beside this.
    OwnJob,
    /// The views don't fit the sheet: what is missing, and what would do.
    NoRoom(NoRoom),
    /// The list of the strokes couldn't be written.
    WriteList,
    /// The plain job couldn't be written.
    WritePlain,
}

/// What a run writes.
#[derive(Clone, Copy)]
pub enum SheetTarget {
    /// The sheet.
    Page,
    /// The list of its strokes.
    Listing,
    /// The job as one of version 2.
    PlainJob,
    /// The line that is said of both.
    Summary,
}

impl RunFault for SheetFault {
    ghost use Rattle.sheet_input.specs.Faults.{sheet_faults, status_of, unwritten_of};
    ghost use Rattle.sheet_input.specs.inner.Shortage.{short_alone};

    type Target = SheetTarget;

    ghost faults = { sheet_faults };

    ghost status_of = { status_of };

    ghost unwritten_of = { unwritten_of };

    ghost memory_wanting = { refl };

    ghost memory_alone = { short_alone };

    fn memory() -> SheetFault {
        SheetFault::Common(Fault::Memory)
    }

    fn unwritten(target: SheetTarget) -> SheetFault {
        match target {
            SheetTarget::Page => SheetFault::Common(Fault::WriteFault(Target::Out)),
            SheetTarget::Listing => SheetFault::WriteList,
            SheetTarget::PlainJob => SheetFault::WritePlain,
            SheetTarget::Summary => SheetFault::Common(Fault::WriteFault(Target::Summary)),
        }
    }

    fn end_status(fault: &Option<SheetFault>) -> u8 {
        match fault {
            None => 0,
            Some(SheetFault::Common(fault)) => fault.status(),
            Some(SheetFault::OwnJob) => 3,
            Some(SheetFault::NoRoom(_)) => 6,
            Some(SheetFault::WriteList) => 8,
            Some(SheetFault::WritePlain) => 8,
        }
    }
}
