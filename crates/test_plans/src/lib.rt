//! Plans of texts and settled phases, for the tests of the crates that need a plan.
//!
//! [`plan_of`] reads and checks a text and returns its plan. [`settle`] computes all steps that a run requires and settles the
//! phase. `StepLaws` of `proofs/` proves that a phase that requires no step can be settled. No crate of the program depends on
//! this one.
#![tactic(auto)]

mod opening;
mod stepping;

pub use opening::{perhaps_plan, plan_of};
pub use stepping::{settle, step};
