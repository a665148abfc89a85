//! Laws of units that run.
ghost use Rattle.unit_exec.specs.Laws.{CheckedUnitsAreCompilable, ValidProgramsAnswer};

/// A law: the units of the plain form of a system that is in range and well-formed may be compiled. Their numbers, types,
/// expressions and lines are within the limits of code, and every target has a slot that may be written.
pub fn checked_units_are_compilable()
    ensures { CheckedUnitsAreCompilable }
{}

/// A law: runs of a valid program have a result from each entry, for all words of states and inputs, one each, and all times and
/// steps. The result is a word, a limit or none, a state with an accepted length, or a fault.
pub fn valid_programs_answer()
    ensures { ValidProgramsAnswer }
{}
