//! Judges whether a system is well-formed, or which rule it breaks, and at which line.
//!
//! The layers above use [`check`], or [`judge`] where a system is only read. They use [`line_of_output`] for the line
//! at which the rule of cycles names an output. The rules are defined in `WellFormed` and `Orders` of `unit_tree`. How
//! they are judged by a walk is defined in `specs/Walks.antt` (the walk over the parts of a system), `specs/Rules.antt`
//! (the tests) and `specs/Questions.antt` (the test that a walk makes).
//!
//! A system in range comes from a text, so the tests of these calls are above the reader, in `text_accept`.
#![tactic(auto)]

mod checking;
mod counts;
mod kind_lines;
mod measures;
mod name_lines;
mod output_lines;
mod port_tables;
mod ports;
mod question;
mod rules;
mod run_lines;
mod tables;
mod walk;

pub use checking::{CheckFault, check, judge};
pub use output_lines::line_of_output;
