ghost use Rattle.language_laws.specs.Language.{CyclesAreJudgedOnce};

/// A law: every system has an order of all its outputs, or exactly one output that is the first without an order, and not
/// both.
pub fn cycles_are_judged_once()
    ensures { CyclesAreJudgedOnce }
{}
