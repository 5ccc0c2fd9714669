// Why a part is refused.
ghost use Rattle.std.specs.Prelude.{◌≡◌, IfErr};
ghost use Rattle.mend_core.specs.inner.Refusals.{faulted};
ghost use Rattle.part_lines.specs.declared.hint.PartHint.TheVariants.{Nothing};

use part_input::Fault;
use part_lines::PartHint;

/// Why a part is refused, and what helps with its text.
#[derive(Drop)]
pub(crate) struct Refusal {
    pub(crate) fault: Fault,
    pub(crate) hint: PartHint,
}

/// The same answer, with a fault beside which nothing is told.
pub(crate) fn without_hint<T: Drop>(answer: Result<T, Fault>) -> Result<T, Refusal>
    ensures same { faulted result ≡ answer }
    ensures hint { IfErr result (λ r. r.hint ≡ Nothing) }
{
    match answer {
        Ok(made) => Ok(made),
        Err(fault) => Err(Refusal {
            fault,
            hint: PartHint::Nothing,
        }),
    }
}
