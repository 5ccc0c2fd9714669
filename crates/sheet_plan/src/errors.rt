// Why no sheet is planned for a job: its views need more room than it has, or memory ran out.
ghost use Rattle.std.specs.Prelude.{◌≡◌};
ghost use Rattle.sheet_plan.specs.declared.errors.PlanError.TheVariants.{Memory};

use exact_frac::OutOfMemory;

/// Why no sheet is planned for a job.
#[derive(Clone, Copy, PartialEq, Eq, Debug)]
pub enum PlanError {
    /// The views need more room than the sheet has, in hundredths of a millimetre.
    DoesNotFit {
        need_w: i64,
        need_h: i64,
        have_w: i64,
        have_h: i64,
    },
    Memory(OutOfMemory),
}

impl From<OutOfMemory> for PlanError {
    ghost from_gives = { λ _ e. e ≡ Memory (record {}) };

    fn from(_: OutOfMemory) -> Self {
        PlanError::Memory(OutOfMemory)
    }
}
