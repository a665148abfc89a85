ghost use Rattle.std.specs.Prelude.{◌≡◌};
ghost use Rattle.trace_rows.specs.Reports.{report_of};

use crate::tally::Tally;
use trace_core::Run;
use unit_tree::{Ending, Point};

/// The report of a run that came to its end. The counts of answers and tickets are those of a run with workers, and 0 without.
#[derive(Clone, Copy, Debug, PartialEq, Eq)]
pub struct Report {
    /// How the trace ended.
    pub outcome: Ending,
    /// The last point of the trace, its time in ticks.
    pub last: Point,
    /// How many rows were written.
    pub rows: u64,
    /// The sum of all words in the written rows. A truth value counts 0 or 1.
    pub sum: i128,
    /// How many steps of instances were taken from answers of others.
    pub found: u64,
    /// How many steps of instances the run made itself.
    pub own: u64,
    /// How many tickets, which let a worker step an instance ahead, were made: each was posted, given back or lapsed.
    pub tickets: u64,
    /// How many of these came back with answers.
    pub posted: u64,
    /// How many were given back without answers.
    pub back: u64,
    /// How many were neither posted nor given back.
    pub lapsed: u64,
}

impl Report {
    /// Returns the report of a run that ended at its present stand, with this tally of its rows and no tickets. A run with workers
    /// sets the counts of tickets afterwards.
    pub fn of_run(run: &Run, outcome: Ending, tally: Tally) -> Report
        ensures { result ≡ report_of run.now outcome tally }
    {
        Report {
            outcome,
            last: run.point(),
            rows: tally.rows,
            sum: tally.sum,
            found: run.found(),
            own: run.own(),
            tickets: 0,
            posted: 0,
            back: 0,
            lapsed: 0,
        }
    }
}
