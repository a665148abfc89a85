use unit_tree::Point;

/// What limits the proposed step.
#[derive(Clone, Copy, Debug, PartialEq, Eq)]
pub enum Limiter {
    /// The limit of the instance with this number, from 0.
    Instance(u32),
    /// The stop of the system.
    Stop,
    /// The longest step of the system.
    Longest,
}

/// An instance that accepted less than its whole step.
#[derive(Clone, Copy, Debug, PartialEq, Eq)]
pub struct Shortening {
    /// Its number, from 0.
    pub instance: u32,
    /// How much of the step it accepted, in its local ticks.
    pub accepted: u64,
}

/// A step that the components of a run agreed on. Lengths are in ticks of the system.
#[derive(Clone, Copy, Debug, PartialEq, Eq)]
pub struct AgreedStep {
    /// The point from which the step is made.
    pub point: Point,
    /// The longest step that the stop, the longest step and all limits allow.
    pub proposed: u64,
    /// What allows no step that is longer: the first instance with this limit, and otherwise the stop or the longest step.
    pub limiter: Limiter,
    /// The least reply to the proposed step.
    pub agreed: u64,
    /// The first instance that gave this reply, where it is less than the proposed step.
    pub shortening: Option<Shortening>,
    /// How many instances are held in the agreed step.
    pub held: u32,
}
