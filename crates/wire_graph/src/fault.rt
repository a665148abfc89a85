ghost use Rattle.std.specs.Prelude.{◌≡◌};

use fixed_words::NoMemory;
use thiserror::Error;

/// Why a system has no order of its outputs.
#[derive(Clone, Copy, Debug, PartialEq, Eq, Error)]
pub enum OrderFault {
    /// The first output that is in no orderly list: it is on a cycle of needs, or depends on an output that is. It is
    /// given by the number of its instance and its own number there.
    ///
    /// Both count from 0, in the plain form of the system: instances in their order; and in an instance the outputs of
    /// its unit and then, for each event output, the one that is true where an event occurs and the one with its word.
    /// In version 1 these are the outputs as they are declared.
    #[error("output {output} of instance {instance} has no order")]
    Loop { instance: u32, output: u32 },
    #[error("no memory")]
    NoMemory,
}

impl From<NoMemory> for OrderFault {
    ghost use Rattle.wire_graph.specs.declared.fault.OrderFault.TheVariants.{NoMemory};

    ghost from_gives = { λ _ fault. fault ≡ NoMemory };

    fn from(_: NoMemory) -> OrderFault {
        OrderFault::NoMemory
    }
}
