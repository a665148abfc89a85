//! The generator: a large valid system from a number.
//!
//! [`generate`] chooses the components, their parameters and their connections by the draws of a seed. For every seed
//! the system is printable, well-formed and without a cycle, so that it can be printed, checked and run. The public
//! functions without a body are these laws.
//!
//! Definitions: `specs/Generated.antt` (the system, and for which numbers of components and rows there is one),
//! `specs/Laws.antt`, `specs/Worked.antt` (a system that was worked out by hand).
#![tactic(auto)]

mod components;
mod generating;
mod laws;
mod units;

pub use generating::generate;
pub use laws::{
    generated_system_is_worked, generated_systems_are_printable, generated_systems_are_well_formed,
    generated_systems_have_no_cycle,
};
