// Why nothing is drawn, and what its line tells beside the fault.
ghost use Rattle.std.specs.Prelude.{◌≡◌};

use crate::fault::SheetFault;
use crate::place::FaultPlace;
use part_input::Fault;
use part_lines::PartHint;
use sheet_job::PlacedFlaw;

/// What the line of a fault tells beside it.
#[derive(Debug, Drop)]
pub enum Told {
    Nothing,
    /// What helps with the part's text.
    Text(PartHint),
    /// Where the surface is at fault.
    Surface(FaultPlace),
    /// What is wrong with the job, and where.
    Job(PlacedFlaw),
}

/// Why nothing is drawn.
#[derive(Debug, Drop)]
pub struct Refusal {
    pub fault: SheetFault,
    pub told: Told,
}

/// A fault of which nothing else is told.
pub(crate) fn plain(fault: SheetFault) -> Refusal
    ensures { result ≡ record { fault = fault; told = Told.Nothing } }
{
    Refusal {
        fault,
        told: Told::Nothing,
    }
}

/// Want of memory.
pub(crate) fn short() -> Refusal
    ensures { result ≡ record { fault = SheetFault.Common Fault.Memory; told = Told.Nothing } }
{
    plain(SheetFault::Common(Fault::Memory))
}
