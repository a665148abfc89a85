ghost use Rattle.std.specs.Prelude.{◌≡◌};

use fixed_words::NoMemory;
use thiserror::Error;

/// Why the position with this number was not saved.
#[derive(Clone, Copy, Debug, PartialEq, Eq, Error)]
pub enum SaveFault {
    /// The trace has no position with this number.
    #[error("no such row")]
    NoRow,
    #[error("no memory")]
    NoMemory,
}

impl From<NoMemory> for SaveFault {
    ghost use Rattle.save_point.specs.declared.fault.SaveFault.TheVariants.{NoMemory};

    ghost from_gives = { λ _ fault. fault ≡ NoMemory };

    fn from(_: NoMemory) -> SaveFault {
        SaveFault::NoMemory
    }
}

/// Why a text saves no position.
#[derive(Clone, Copy, Debug, PartialEq, Eq, Error)]
pub enum SavedFault {
    /// The number of the first line, from 1, that is missing or doesn't have the form of its place.
    #[error("line {line}")]
    Line { line: u32 },
    #[error("no memory")]
    NoMemory,
}

impl From<NoMemory> for SavedFault {
    ghost use Rattle.save_point.specs.declared.fault.SavedFault.TheVariants as faults;

    ghost from_gives = { λ _ fault. fault ≡ faults.NoMemory };

    fn from(_: NoMemory) -> SavedFault {
        SavedFault::NoMemory
    }
}
