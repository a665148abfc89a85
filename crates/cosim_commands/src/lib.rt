//! The commands of `cosim`, and the calls that serve them.
//!
//! The program calls [`cosim_gated`], with any source and sinks of bytes. Its contract, a record of five clauses, is the main theorem of
//! the project. [`cosim`] and [`cosim_alone`] have the same contract. `cosim_answers` defines what an answer is, and has the laws of
//! answers. `cosim_call` defines the five clauses of a call.
//!
//! `cosim_notes` has what these commands share with those of other programs.
#![tactic(auto)]

mod command;
mod commands;

pub use command::{cosim, cosim_alone, cosim_gated};
pub use cosim_call::Status;
