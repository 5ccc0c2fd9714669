// The faults of a run that puts texts.
ghost use Rattle.std.specs.Prelude.{◌≡◌, ℕ, Option, refl};
ghost use Rattle.part_input.specs.Causes.{Faults, common, unwritten, wanting};
ghost use Rattle.part_input.proofs.Causes.{memory_alone};

use part_input::{Fault, Target};

/// Why a run of a program refuses. One of its faults is want of memory, and of each target of its texts there is one of writing.
pub trait RunFault: Sized + Drop {
    /// What a run writes.
    type Target: Drop;

    /// What each is to the desk, and which is want of memory.
    ghost faults: { Faults Self };

    /// The status that a run ends with.
    ghost status_of: { Option Self → ℕ };

    /// The fault of writing what goes to a target.
    ghost unwritten_of: { Self.Target → Self };

    /// Want of memory.
    fn memory() -> Self
        ensures { result ≡ faults.memory };

    /// The fault of a target that couldn't be written.
    fn unwritten(target: Self::Target) -> Self
        ensures fault { result ≡ unwritten_of target }
        ensures cause { faults.cause result ≡ unwritten };

    /// The program's status at the end of a run.
    fn end_status(fault: &Option<Self>) -> u8
        ensures { result ≡ status_of fault.now };

    /// So it says of itself, and no other does.
    ghost memory_wanting: { faults.cause faults.memory ≡ wanting };

    ghost memory_alone: { (fault : Self) → faults.cause fault ≡ wanting → fault ≡ faults.memory };
}

impl RunFault for Fault {
    ghost use Rattle.part_input.specs.Faults.{status_of};
    ghost use Rattle.part_input.specs.declared.fault.Fault.TheVariants.{WriteFault};

    type Target = Target;

    ghost faults = { common };

    ghost status_of = { status_of };

    ghost unwritten_of = { WriteFault };

    ghost memory_wanting = { refl };

    ghost memory_alone = { memory_alone };

    fn memory() -> Fault {
        Fault::Memory
    }

    fn unwritten(target: Target) -> Fault {
        Fault::WriteFault(target)
    }

    fn end_status(fault: &Option<Fault>) -> u8 {
        Fault::end_status(fault)
    }
}
