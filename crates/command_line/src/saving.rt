//! What the options of `save` ask for.
ghost use Rattle.std.specs.Prelude.{◌≡◌};
ghost use Rattle.command_line.specs.Commands.{saving_of};

use crate::commands::without_options;
use crate::options::Given;
use crate::ranges::Within;

/// The number of a row, counted from 0. A trace has at most 100,000.
pub type RowNumber = Within<0, 99_999>;

/// Which position of a trace is saved.
#[derive(Clone, Copy, Debug, PartialEq, Eq)]
pub struct Saving {
    pub row: RowNumber,
}

/// Returns what options ask of `save`, or `None` where the row is missing or out of its range, or another option is given.
pub(crate) fn saving_of(given: Given) -> Option<Saving>
    ensures { result ≡ saving_of given }
{
    let asked = Saving {
        row: RowNumber::required(given.row)?,
    };
    let left = Given { row: None, ..given };
    without_options(asked, left)
}
