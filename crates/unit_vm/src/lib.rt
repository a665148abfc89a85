//! The stack machine: what code is, when it is valid, and what a run of it returns.
//!
//! Code is a list of words: a table of entries, and two words for each instruction. [`Code::new`] and [`check_code`] accept
//! exactly the valid code and return its facts: how high the stacks get, what a run costs at most, and how many slots a frame
//! has. [`Code::new`] decodes the words once, and joins instructions into superinstructions. [`run`] follows these and does not
//! test what validity ensures: no operand, place or slot can be missing. It takes no memory.
//!
//! The layer above uses [`Code`], [`Frame`] and [`run`], and writes code by [`Program`] and
//! [`Instruction`].
//!
//! Definitions:
//!
//! - `specs/Instructions.antt`: the table of operations
//! - `specs/Programs.antt`: a program as words
//! - `specs/Loops.antt`: loops and cost, by the text
//! - `specs/Valid.antt`: valid code and its facts
//! - `specs/Machine.antt`: one instruction, and a run
//! - `specs/Frames.antt`: what a run leaves in a frame
//! - `specs/Laws.antt`, `specs/Worked.antt`: laws, and cases that were worked out by hand
//!
//! How the code proceeds:
//!
//! - `specs/Registers.antt`: the state in registers and cells
//! - `specs/Superinstructions.antt`: which instructions each one does, and its effect
//! - `specs/Reading.antt`: words as a program
//! - `specs/Tables.antt` and `specs/Judged.antt`: loops and heights by place
#![tactic(auto)]

mod around;
mod code;
mod frame;
mod heights;
mod instruction;
mod judging;
mod laws;
mod machine;
mod program;
mod reading;
mod running;
mod runs;
mod superinstruction;
mod turns;
mod writing;

pub use code::{Code, check_code};
pub use frame::Frame;
pub use instruction::{Flow, Instruction};
pub use laws::{code_is_one, machine_is_worked, valid_programs_are_read_back, valid_runs_end};
pub use program::{CodeFacts, Entry, Program, Role, Sizes};
pub use running::run;
