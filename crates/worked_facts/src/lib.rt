//! Small cases that were worked out by hand, and for which the definitions give the same.
//!
//! No crate depends on this one. It tests the definitions: those of the language and of runs (`unit_tree`), of texts and of the lines
//! of a trace (`trace_csv`). It computes them for texts, expressions, systems and runs whose meaning was worked out without them. Each
//! file of `specs/` has the cases of one subject.
#![tactic(auto)]

mod language;
mod runs;
mod texts;
mod traces;

pub use language::{
    blocks_are_worked, events_are_worked, kinds_and_costs_are_worked, limits_are_worked,
    lines_are_worked, orders_are_worked, phrases_are_worked, systems_are_worked,
};
pub use runs::runs_are_worked;
pub use texts::texts_are_worked;
pub use traces::text_is_worked;
