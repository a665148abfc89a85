//! A small nest that was worked out by hand.
ghost use Rattle.nest_runs.specs.WorkedNest.{FlatIsWorked, PortsAreWorked};

/// A law: the flat system of a nest of two levels is the one that was worked out by hand, and its ports
/// have the values that its lines give.
pub fn a_nest_is_worked()
    ensures flat { FlatIsWorked }
    ensures ports { PortsAreWorked }
{}
