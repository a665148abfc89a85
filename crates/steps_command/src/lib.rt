//! The call of the program `cosim-steps`, which reads a model as `cosim run` does and reports the steps of its run: their log, or with
//! `--summary` their summary.
//!
//! [`cosim_steps`] is the call that its `main` makes. Its contract is the five clauses of `cosim_call`, with the answers of
//! `specs/StepAnswers.antt`: for a text that is accepted, the report of the steps of the system as it is written, and the status and
//! notes of `cosim run`. A law says that each call has exactly one answer ([`one_answer`]).
#![tactic(auto)]

mod call;
mod laws;

pub use call::cosim_steps;
pub use laws::one_answer;
