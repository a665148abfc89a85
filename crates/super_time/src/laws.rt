ghost use Rattle.super_time.specs.Laws.{LimitsPassLocalTicks, TimesAreWorked, SecondsAreWorked};

/// A law: a step to a limit is a local step of exactly that many local ticks, and no shorter step
/// is.
pub fn limits_pass_local_ticks()
    ensures { LimitsPassLocalTicks }
{}

/// A law: the definitions give the local times, local steps and limits that were worked out by
/// hand.
pub fn times_are_worked()
    ensures { TimesAreWorked }
{}

/// A law: the definitions give the seconds in ticks that were worked out by hand.
pub fn seconds_are_worked()
    ensures { SecondsAreWorked }
{}
