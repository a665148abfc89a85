//! Laws of the code of units.
ghost use Rattle.code_units.specs.Laws.{ProgramsComputeUnits, UnitProgramsAreValid, CodesCostWhatTreesDo};

/// A law: the program of a unit that may be compiled computes the unit with the words of its parameters. This holds of each
/// entry, for all words of states and inputs, one each, and all times and steps.
pub fn programs_compute_units()
    ensures { ProgramsComputeUnits }
{}

/// A law: the program of a unit that may be compiled is valid.
pub fn unit_programs_are_valid()
    ensures { UnitProgramsAreValid }
{}

/// A law: the code of each call of a unit that may be compiled costs at most what the call costs by its tree. It costs less
/// where the operand of an `int` is a whole number already.
pub fn codes_cost_what_trees_do()
    ensures { CodesCostWhatTreesDo }
{}
