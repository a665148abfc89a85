use unit_tree::{Ending, Point};

/// The result of a replay: how and where its trace ended, and how many events of each kind there were.
#[derive(Clone, Copy, Debug, PartialEq, Eq)]
pub struct Counts {
    pub outcome: Ending,
    /// The last point of the trace, its time in ticks.
    pub last: Point,
    /// All events, including the refused ones.
    pub events: u64,
    /// How many were refused.
    pub refused: u64,
    /// How many steps were found in the lanes.
    pub found: u64,
    /// How many the run made itself.
    pub own: u64,
    /// How many tickets were taken.
    pub tickets: u64,
    /// How many of these were posted.
    pub posted: u64,
    /// How many were given back.
    pub back: u64,
    /// How many are still in the hands of workers.
    pub lapsed: u64,
    /// How many answers were appended to the lanes.
    pub appended: u64,
}
