ghost use Rattle.worked_facts.specs.WorkedRuns.{CountersAreWorked, PortsAreWorked, StepsAreWorked, HeaterIsWorked};

/// A law: by the definitions, traces are those that were worked out by hand.
pub fn runs_are_worked()
    ensures counters { CountersAreWorked }
    ensures ports { PortsAreWorked }
    ensures steps { StepsAreWorked }
    ensures heater { HeaterIsWorked }
{}
