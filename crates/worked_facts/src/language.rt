ghost use Rattle.worked_facts.specs.WorkedBlocks.{LinesAreWorked, BlocksAreWorked};
ghost use Rattle.worked_facts.specs.WorkedEvents.{PlainFormsAreWorked, EventsAreWorked};
ghost use Rattle.worked_facts.specs.WorkedLimits.{LimitsAreWorked};
ghost use Rattle.worked_facts.specs.WorkedPhrases.{PhrasesAreWorked};
ghost use Rattle.worked_facts.specs.WorkedSystems.{SystemsAreWorked, OrdersAreWorked};
ghost use Rattle.worked_facts.specs.WorkedKinds.{KindsAreWorked, WrongKindsAreWorked, LineKindsAreWorked, CostsAreWorked};

/// A law: by the definitions, expressions are those that were worked out by hand.
pub fn phrases_are_worked()
    ensures { PhrasesAreWorked }
{}

/// A law: by the definitions, lines of texts are those that were cut by hand.
pub fn lines_are_worked()
    ensures { LinesAreWorked }
{}

/// A law: by the definitions, forms are allowed where it was worked out by hand.
pub fn blocks_are_worked()
    ensures { BlocksAreWorked }
{}

/// A law: the canonical lines of a system, and a system for each rule that one can break, worked out by hand.
pub fn systems_are_worked()
    ensures { SystemsAreWorked }
{}

/// A law: systems of version 2, with their plain forms and each rule that events change, worked out by hand.
pub fn events_are_worked()
    ensures plain_forms { PlainFormsAreWorked }
    ensures rules { EventsAreWorked }
{}

/// A law: by the definitions, kinds and costs of expressions and step lines are those that were worked out by hand.
pub fn kinds_and_costs_are_worked()
    ensures kinds { KindsAreWorked }
    ensures wrong_kinds { WrongKindsAreWorked }
    ensures line_kinds { LineKindsAreWorked }
    ensures costs { CostsAreWorked }
{}

/// A law: orders of outputs, and the output that has none, worked out by hand.
pub fn orders_are_worked()
    ensures { OrdersAreWorked }
{}

/// A law: how many there may be of each, worked out at the limits.
pub fn limits_are_worked()
    ensures { LimitsAreWorked }
{}
