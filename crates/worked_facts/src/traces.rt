ghost use Rattle.worked_facts.specs.WorkedTrace.{TextIsWorked};

/// A law: by the definitions, the columns of a system with an event output and the first lines of its trace are those that were worked
/// out by hand.
pub fn text_is_worked()
    ensures { TextIsWorked }
{}
