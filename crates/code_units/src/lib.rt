//! Code of units: how the expressions and step lines of a unit are compiled for the stack machine, and that the code does
//! what they mean.
//!
//! The layer above uses [`program`], which returns the program of a unit with the words of its parameters. Expressions and
//! lines become pieces of structured code by folds over their trees: `specs/Expressions.antt` and `specs/StepLines.antt`. A name
//! is a constant or a slot (`Scopes`). `UnitPrograms` defines the program of a unit, and which units may be compiled. `Calls` defines
//! the results of its runs, and when a program computes a component. `proofs/Frames.antt` says once that words under names and
//! words in slots agree. The laws are [`programs_compute_units`], [`unit_programs_are_valid`] and [`codes_cost_what_trees_do`].
#![tactic(auto)]

mod expressions;
mod laws;
mod lines;
mod programs;
mod scope;

pub use laws::{codes_cost_what_trees_do, programs_compute_units, unit_programs_are_valid};
pub use programs::program;
pub use scope::{CodeScope, NamePlace, Named};
