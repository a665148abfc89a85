use fixed_words::NoMemory;
use thiserror::Error;

/// Why a lane is not published.
#[derive(Clone, Copy, Debug, PartialEq, Eq, Error)]
pub enum LaneFault {
    /// The journal has no space for another ticket.
    #[error("the lane is full")]
    Full,
    #[error("no memory")]
    NoMemory,
}

impl From<NoMemory> for LaneFault {
    ghost use Rattle.std.specs.Prelude.{◌≡◌};
    ghost use Rattle.guess_board.specs.declared.fault.LaneFault.TheVariants.{NoMemory};

    ghost from_gives = { λ _ fault. fault ≡ NoMemory };

    fn from(_: NoMemory) -> LaneFault {
        LaneFault::NoMemory
    }
}
