//! Small answers of commands that were worked out by hand, and for which the definitions give the same.
//!
//! No crate depends on this one. It tests definitions that `worked_facts` doesn't reach: those of parts of nested texts, of flat
//! systems, of rules of groups, of verdicts, of tables, of saved texts and positions and of traces with events. Each file of `specs/`
//! has the cases of one subject.
#![tactic(auto)]

mod answers;

pub use answers::{
    event_runs_are_worked, event_texts_are_worked, group_rules_are_worked, nests_are_worked,
    parts_are_worked, saved_forms_are_worked, saved_positions_are_worked, saved_texts_are_worked,
    table_forms_are_worked, tables_are_worked, verdicts_are_worked,
};
