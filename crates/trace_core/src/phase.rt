use unit_tree::{Ending, Point};

/// The phase of a run at its position. All lengths are in ticks of the system.
#[derive(Clone, Copy, Debug, PartialEq, Eq)]
pub enum Phase {
    /// The run tries the proposed step.
    Trial { h: u64 },
    /// The run makes the step again from the same states, by the length that all components accept.
    Redo { h: u64 },
    /// The run has ended.
    Ended(Ending),
}

/// The result of settling a phase.
#[derive(Clone, Copy, Debug, PartialEq, Eq)]
pub enum Settle {
    /// Some component accepted less than the proposed step: all states are restored, and each component makes its step again.
    Redo,
    /// The run came to a new point, at which all outputs have a word. It may have ended there.
    Row,
    /// The run ended, and there is no new row.
    Ended,
}

/// A row of the trace: a point, and the words of all outputs there by their places.
#[derive(Clone, Copy, Debug)]
pub struct Row<'a> {
    pub point: Point,
    pub ports: &'a [i64],
}
