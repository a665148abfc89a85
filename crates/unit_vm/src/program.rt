ghost use Rattle.std.specs.Prelude.{◌≡◌, ◌≤◌};
ghost use Rattle.unit_vm.specs.Instructions.{slots_of, is_stored};
ghost use Rattle.std.specs.Option.{option_copied};
ghost use Rattle.unit_vm.specs.Programs.{part_at};
ghost use Rattle.model_rules.specs.Limits.{input_limit, local_limit, state_limit};

use crate::instruction::Instruction;
use fixed_words::List;

/// How many slots of each kind a frame has, in this order. Two more slots have the local time and the step.
#[derive(Clone, Copy, Debug, PartialEq, Eq)]
pub struct Sizes {
    pub states: u32,
    pub inputs: u32,
    pub locals: u32,
}

/// What a part of the code is run for. It determines the instruction that ends the part.
#[derive(Clone, Copy, Debug)]
pub enum Role {
    Output,
    Limit,
    Step,
}

/// A run's entry into the code: an output by its number, the limit, or the step.
#[derive(Clone, Copy, Debug, PartialEq, Eq)]
pub enum Entry {
    Output(u32),
    Limit,
    Step,
}

/// The code of a unit as instructions: a part for each output, one for the limit if the unit has a `max`, and one for the
/// step.
#[derive(Debug, Drop)]
pub struct Program {
    pub sizes: Sizes,
    pub outputs: List<List<Instruction>>,
    pub limit: Option<List<Instruction>>,
    pub step: List<Instruction>,
}

/// The facts of code: how much space a frame needs, and how long a run may be.
#[derive(Clone, Copy, Debug, PartialEq, Eq)]
pub struct CodeFacts {
    /// The greatest height of the stack of words.
    pub stack: u32,
    /// The greatest height of the stack of loop counters.
    pub loops: u32,
    /// The greatest cost of a part: a run makes at most so many instructions.
    pub cost: u32,
    /// How many slots there are, including those of the local time and the step.
    pub slots: u32,
}

impl Sizes {
    /// Returns how many slots there are, including those of the local time and the step.
    pub fn slots(self) -> u32
        requires states { self.states ≤ state_limit }
        requires inputs { self.inputs ≤ input_limit }
        requires locals { self.locals ≤ local_limit }
        ensures { result ≡ slots_of self }
    {
        self.states + self.inputs + self.locals + 2
    }

    /// Returns whether the slot may be written: it is that of a state or a local.
    pub fn is_stored(self, slot: u32) -> bool
        requires states { self.states ≤ state_limit }
        requires inputs { self.inputs ≤ input_limit }
        requires locals { self.locals ≤ local_limit }
        ensures { result ≡ is_stored self slot }
    {
        slot < self.states
            || self.states + self.inputs <= slot && slot < self.states + self.inputs + self.locals
    }
}

impl Program {
    /// Returns the code that is run at an entry, if the program has it.
    pub fn part(&self, entry: Entry) -> Option<&List<Instruction>>
        ensures { option_copied result ≡ part_at self.now entry }
    {
        match entry {
            Entry::Output(number) => self.outputs.get(number as usize),
            Entry::Limit => self.limit.as_ref(),
            Entry::Step => Some(&self.step),
        }
    }
}
