ghost use Rattle.std.specs.Prelude.{◌≡◌};

use fixed_words::NoMemory;
use thiserror::Error;

/// Why a system was not upgraded.
#[derive(Clone, Copy, Debug, PartialEq, Eq, Error)]
pub enum UpgradeFault {
    /// The canonical text of the upgraded system has more bytes than a text may have.
    #[error("the text in version 2 is too long")]
    TooLong,
    #[error("no memory")]
    NoMemory,
}

impl From<NoMemory> for UpgradeFault {
    ghost use Rattle.unit_upgrade.specs.declared.fault.UpgradeFault.TheVariants as faults;

    ghost from_gives = { λ _ fault. fault ≡ faults.NoMemory };

    fn from(_: NoMemory) -> UpgradeFault {
        UpgradeFault::NoMemory
    }
}
