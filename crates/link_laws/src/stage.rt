use unit_tree::Ending;

/// What a row requires next, by what is known of it. All lengths are in ticks of the system.
#[derive(Clone, Copy, Debug, PartialEq, Eq)]
pub enum Stage {
    /// Words of outputs are missing.
    Words,
    /// Limits are missing.
    Limits,
    /// Replies to a trial of this length are missing.
    Trial(u64),
    /// Replies to a redo of this length are missing.
    Redo(u64),
    /// The row is complete, and the trace ends there.
    Over(Ending),
    /// The row is complete, and the trace goes on by a step of this length.
    On(u64),
}
