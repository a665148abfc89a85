//! Laws of the steps of a phase.
ghost use Rattle.step_rule.specs.Laws.{RedosAreRead, TrialIsWorked, TrialsAreRead};

/// A law: what is read of the steps of members is what the negotiation of a system defines for their results.
pub fn steps_are_read()
    ensures trials { TrialsAreRead }
    ensures redos { RedosAreRead }
{}

/// A law: a trial that was worked out by hand leads to a redo, and its redo to the next point.
pub fn a_trial_is_worked()
    ensures { TrialIsWorked }
{}
