//! What the options of `replay` ask for.
ghost use Rattle.std.specs.Prelude.{◌≡◌};
ghost use Rattle.command_line.specs.Commands.{replaying_of};

use crate::commands::without_options;
use crate::options::Given;
use crate::running::Workers;

/// The seed of a replay, and its number of workers.
#[derive(Clone, Copy, Debug, PartialEq, Eq)]
pub struct Replaying {
    pub seed: u64,
    pub workers: Workers,
}

/// Returns what options ask of a replay, or `None` where one of the two is missing, the workers are out of their range, or another option
/// is given.
pub(crate) fn replaying_of(given: Given) -> Option<Replaying>
    ensures { result ≡ replaying_of given }
{
    let asked = Replaying {
        seed: given.seed?,
        workers: Workers::required(given.workers)?,
    };
    let left = Given {
        seed: None,
        workers: None,
        ..given
    };
    without_options(asked, left)
}
