//! What the options of `nodes` ask for.
ghost use Rattle.std.specs.Prelude.{◌≡◌};
ghost use Rattle.command_line.specs.Commands.{splitting_of};

use crate::commands::without_options;
use crate::options::Given;
use crate::ranges::Within;
use model_rules::MOST_ROUNDS;

/// How many rounds two nodes make.
pub type Rounds = Within<1, MOST_ROUNDS>;

/// The seed by which facts between two nodes are lost, and for how many rounds the nodes run.
#[derive(Clone, Copy, Debug, PartialEq, Eq)]
pub struct Splitting {
    pub seed: u64,
    pub rounds: Rounds,
}

/// Returns what options ask of two nodes, or `None` where one of the two is missing, the rounds are out of their range,
/// or another option is
/// given.
pub(crate) fn splitting_of(given: Given) -> Option<Splitting>
    ensures { result ≡ splitting_of given }
{
    let asked = Splitting {
        seed: given.seed?,
        rounds: Rounds::required(given.rounds)?,
    };
    let left = Given {
        seed: None,
        rounds: None,
        ..given
    };
    without_options(asked, left)
}
