//! Whether a table is the trace of a plan.
//!
//! [`verify`] returns whether the records of a table are those of a plan's trace, or the first record and field that differ. It
//! runs the plan row by row, and stops at the first difference. It keeps one row and one record. `stimulus_tables` reads the
//! records. [`part`] cuts an input into a text, a line `trace` and a table.
//!
//! `specs/Verdicts.antt` defines the verdict on two lists of records; [`verdicts_are_right`] says that it has the first difference.
//! `specs/Verifying.antt` defines which lists these are. `specs/Parting.antt` defines the parts of an input;
//! [`texts_are_parted_once`] says that it has one text and one table, or lacks the line.
#![tactic(auto)]

mod compare;
mod laws;
mod parting;
mod verdict;
mod verifying;

pub use laws::{texts_are_parted_once, verdicts_are_right};
pub use parting::{Parted, part};
pub use verdict::Verdict;
pub use verifying::verify;
