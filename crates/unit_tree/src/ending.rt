use fixed_words::Fault;

/// Where in a component a fault was.
#[derive(Clone, Copy, Debug, PartialEq, Eq)]
pub enum Place {
    /// In an output, by its number from 0 in the plain form of the unit, where an event output is two outputs.
    Output(u32),
    /// In its `max`.
    Max,
    /// In a step.
    Step,
}

/// How a run ends. Instances are named by their numbers from 0.
#[derive(Clone, Copy, Debug, PartialEq, Eq)]
pub enum Ending {
    /// At its stop.
    Completed,
    /// With as many rows as the row budget allows.
    RowBudget,
    /// The agreed step has length zero, and the zero budget is already spent.
    ZeroBudget,
    /// By a fault of an instance.
    UnitFault {
        instance: u32,
        place: Place,
        fault: Fault,
    },
    /// By an instance that accepts a shorter step than the agreed one. Both lengths are in its local ticks.
    StepRefused {
        instance: u32,
        asked: u64,
        accepted: u64,
    },
}
