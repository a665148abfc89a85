ghost use Rattle.std.specs.Prelude.{◌≡◌};

use fixed_words::NoMemory;
use thiserror::Error;

/// Why a text has no system.
#[derive(Clone, Copy, Debug, PartialEq, Eq, Error)]
pub enum TextFault {
    /// The text breaks a rule at a line, counted from 1. It is the first line that breaks a rule, and the least rule
    /// that it breaks.
    #[error("line {line}: rule {rule}")]
    Line { line: u32, rule: u8 },
    #[error("no memory")]
    NoMemory,
}

impl From<NoMemory> for TextFault {
    ghost use Rattle.unit_text.specs.declared.fault.TextFault.TheVariants.{NoMemory};

    ghost from_gives = { λ _ fault. fault ≡ NoMemory };

    fn from(_: NoMemory) -> TextFault {
        TextFault::NoMemory
    }
}
