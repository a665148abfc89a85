ghost use Rattle.step_log.specs.Laws.{StepsAreRead};

/// A law: the agreed steps of the trace of a system's plain form are those of the system's own trace.
pub fn steps_are_read()
    ensures { StepsAreRead }
{}
