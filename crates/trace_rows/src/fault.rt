ghost use Rattle.std.specs.Prelude.{◌≡◌};

use cosim_io::Failed;
use fixed_words::NoMemory;
use thiserror::Error;

/// Why a run was given up.
#[derive(Clone, Copy, Debug, PartialEq, Eq, Error)]
pub enum CrewFault {
    /// A write failed.
    #[error("a write failed")]
    WriteFault,
    #[error("no memory")]
    NoMemory,
}

impl From<Failed> for CrewFault {
    ghost use Rattle.trace_rows.specs.declared.fault.CrewFault.TheVariants.{WriteFault};

    ghost from_gives = { λ _ fault. fault ≡ WriteFault };

    fn from(_: Failed) -> CrewFault {
        CrewFault::WriteFault
    }
}

impl From<NoMemory> for CrewFault {
    ghost use Rattle.trace_rows.specs.declared.fault.CrewFault.TheVariants as faults;

    ghost from_gives = { λ _ fault. fault ≡ faults.NoMemory };

    fn from(_: NoMemory) -> CrewFault {
        CrewFault::NoMemory
    }
}
