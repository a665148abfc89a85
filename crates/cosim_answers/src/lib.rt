//! The answers of the program to words and input: definitions and laws, without code.
//!
//! Definitions: `specs/Answer.antt` defines the answers for words and input. It uses
//!
//! - `specs/Accepted.antt`: answers for texts that keep all rules
//! - `event_csv`: the text of a trace
//! - `specs/Figures.antt`: figures of a trace
//! - `specs/SavedAnswers.antt`: saving and resuming
//! - `specs/TableAnswers.antt`, `specs/FlatAnswers.antt`, `specs/NodesAnswers.antt`: the commands on tables, on groups and of two nodes
//! - `specs/Notes.antt`: notes
//! - `specs/Usage.antt`: words without a form
//! - `command_line`: which words are which command
//! - `cosim_call`: the five clauses, an answer, the notes of faults, the exit codes
//!
//! [`one_answer`] is the law that every call has exactly one answer. [`statuses_have_causes`] states what a status says of it.
//! [`workers_change_nothing`] says that a run is the same with workers and without, and [`saved_runs_go_on`] that a saved and resumed
//! run is the same too. [`saved_positions_are_read`] says that a saved position fits a system as it is written exactly where it fits its
//! plain form. [`pipelines_agree`] is the law of the answers of a command to what another one printed (`specs/Pipelines.antt`).
//! `specs/Serving.antt` defines what the parts of commands do; no promise depends on it.
#![tactic(auto)]

mod laws;

pub use laws::{
    one_answer, pipelines_agree, saved_positions_are_read, saved_runs_go_on, statuses_have_causes,
    workers_change_nothing,
};
