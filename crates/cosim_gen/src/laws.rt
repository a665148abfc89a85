ghost use Rattle.cosim_gen.specs.Laws.{GeneratedArePrintable, GeneratedAreWellFormed, GeneratedHaveNoCycle};
ghost use Rattle.cosim_gen.specs.Worked.{GeneratedIsWorked};

/// A law: a generated system is printable, so that its text is read back as the system.
pub fn generated_systems_are_printable()
    ensures { GeneratedArePrintable }
{}

/// A law: a generated system is well-formed, so that no rule refuses it.
pub fn generated_systems_are_well_formed()
    ensures { GeneratedAreWellFormed }
{}

/// A law: no generated system has a cycle, so that its outputs have an order.
pub fn generated_systems_have_no_cycle()
    ensures { GeneratedHaveNoCycle }
{}

/// A law: the definitions give the generated system whose text was worked out by hand.
pub fn generated_system_is_worked()
    ensures { GeneratedIsWorked }
{}
