ghost use Rattle.std.specs.Prelude.{◌≡◌};

use fixed_words::NoMemory;
use thiserror::Error;

/// Why a table has no system.
#[derive(Clone, Copy, Debug, PartialEq, Eq, Error)]
pub enum TableFault {
    /// The table doesn't have the form of a table of stimulus.
    #[error("record {number} is not as it has to be")]
    Form {
        /// The number of the first record, from 1, that is missing or doesn't have the form.
        number: u64,
    },
    #[error("no memory")]
    NoMemory,
}

impl From<NoMemory> for TableFault {
    ghost use Rattle.stimulus_tables.specs.declared.fault.TableFault.TheVariants as faults;

    ghost from_gives = { λ _ fault. fault ≡ faults.NoMemory };

    fn from(_: NoMemory) -> TableFault {
        TableFault::NoMemory
    }
}
