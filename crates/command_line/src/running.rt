//! What the options of `run` ask for.
ghost use Rattle.std.specs.Prelude.{◌≡◌};
ghost use Rattle.command_line.specs.Commands.{running_of};

use crate::commands::without_options;
use crate::options::Given;
use crate::ranges::Within;
use guess_board::Policy;
use model_rules::{LONGEST_WINDOW, MOST_WORKERS};

/// How many workers step components ahead.
pub type Workers = Within<0, MOST_WORKERS>;

/// For how many rows inputs are guessed.
pub type Window = Within<0, LONGEST_WINDOW>;

/// How a system is run.
#[derive(Clone, Copy, Debug, PartialEq, Eq)]
pub struct Running {
    pub workers: Workers,
    pub window: Window,
    /// How inputs are guessed.
    pub guess: Policy,
    /// Whether a line of counts is noted after how the run ended.
    pub report: bool,
}

/// Returns what options ask of a run, or `None` where a number is out of its range, or another option is given.
pub(crate) fn running_of(given: Given) -> Option<Running>
    ensures { result ≡ running_of given }
{
    let asked = Running {
        workers: Workers::given_or(0, given.workers)?,
        window: Window::given_or(4, given.window)?,
        guess: given.guess.unwrap_or(Policy::Hold),
        report: given.report,
    };
    let left = Given {
        workers: None,
        window: None,
        guess: None,
        report: false,
        ..given
    };
    without_options(asked, left)
}
