ghost use Rattle.std.specs.Prelude.{◌≡◌};

use fixed_words::NoMemory;
use thiserror::Error;

/// Why a nested text has no nest.
#[derive(Clone, Copy, Debug, PartialEq, Eq, Error)]
pub enum NestFault {
    /// The text breaks a rule at a line, counted from 1.
    #[error("line {line}: rule {rule}")]
    Line { line: u32, rule: u8 },
    #[error("no memory")]
    NoMemory,
}

impl From<NoMemory> for NestFault {
    ghost use Rattle.nest_text.specs.declared.fault.NestFault.TheVariants as faults;

    ghost from_gives = { λ _ fault. fault ≡ faults.NoMemory };

    fn from(_: NoMemory) -> NestFault {
        NestFault::NoMemory
    }
}
