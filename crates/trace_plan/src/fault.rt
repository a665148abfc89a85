use fixed_words::NoMemory;
use thiserror::Error;
use wire_graph::OrderFault;

/// Why a system has no plan.
#[derive(Clone, Copy, Debug, PartialEq, Eq, Error)]
pub enum PlanFault {
    /// The first output without an order, given by the number of its instance and its number in the instance, as
    /// [`OrderFault::Loop`] has it.
    #[error("output {output} of instance {instance} has no order")]
    Loop { instance: u32, output: u32 },
    #[error("no memory")]
    NoMemory,
}

impl From<NoMemory> for PlanFault {
    ghost use Rattle.std.specs.Prelude.{◌≡◌};
    ghost use Rattle.trace_plan.specs.declared.fault.PlanFault.TheVariants.{NoMemory};

    ghost from_gives = { λ _ fault. fault ≡ NoMemory };

    fn from(_: NoMemory) -> PlanFault {
        PlanFault::NoMemory
    }
}
