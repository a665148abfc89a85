ghost use Rattle.unit_vm.specs.Laws.{ValidRunsEnd, CodeIsOne, ValidProgramsAreReadBack};
ghost use Rattle.unit_vm.specs.Worked.{MachineIsWorked};

/// A law: a run of valid code ends after at most as many instructions as its part costs. No operand, slot or instruction is
/// missing, and both stacks stay within the code's facts.
pub fn valid_runs_end()
    ensures { ValidRunsEnd }
{}

/// A law: words are valid code of at most one program, with one list of facts.
pub fn code_is_one()
    ensures { CodeIsOne }
{}

/// A law: the words of a valid program are read as this program.
pub fn valid_programs_are_read_back()
    ensures { ValidProgramsAreReadBack }
{}

/// A law: by the definitions, small runs, costs and words are those that were worked out by hand.
pub fn machine_is_worked()
    ensures { MachineIsWorked }
{}
