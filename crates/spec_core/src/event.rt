use trace_core::Settle;

/// What may happen to a world. Instances and workers are given by their numbers from 0.
#[derive(Clone, Copy, Debug, PartialEq, Eq)]
pub enum Event {
    /// The lane of an instance is published with the guesses of its next steps.
    Publish { instance: u32 },
    /// A worker takes a ticket of an instance, and appends it to its hand.
    Take { worker: u32, instance: u32 },
    /// A worker moves the first ticket of another one to the end of its own hand.
    Steal { worker: u32, from: u32 },
    /// A worker posts the answers to the first of its tickets, of at most so many cells.
    Post { worker: u32, cells: u32 },
    /// A worker gives back the first of its tickets.
    Back { worker: u32 },
    /// The run looks in the lane of an instance for the required step.
    Find { instance: u32 },
    /// The run makes the required step of an instance.
    Compute { instance: u32 },
    /// The run settles its phase, when all steps of it are made.
    Settle,
}

/// The result of an event.
#[derive(Clone, Copy, Debug, PartialEq, Eq)]
pub enum Reply {
    /// Nothing happened, since the event was not possible.
    Refused,
    /// The lane kept so many answers.
    Published { kept: u32 },
    Taken,
    Stolen,
    /// So many answers were appended.
    Posted { appended: u32 },
    Back,
    /// An answer was found, and the run accepted it.
    Found,
    /// No answer was found.
    Missed,
    Computed,
    Settled(Settle),
}
