use fixed_words::{Fault, List};

/// The result of a step.
#[derive(Debug, Drop)]
pub enum Answer {
    /// The step led to this state, and accepted so many local ticks.
    Moved { state: List<i64>, accepted: u64 },
    /// The step met a fault, and the state stayed.
    Failed { fault: Fault },
}
