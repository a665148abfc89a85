//! Runs of systems with event ports, as they are written: definitions and laws, without code.
//!
//! A system is run in its plain form, in which each event port is two plain ports. This crate defines what the system
//! means as it is written, where an event port has a word or is absent. It proves that the run of the plain form, read
//! as signals, is that of the system:
//!
//! - `specs/Events.antt`: values, event outputs, step lines and the calls of a component where events occur at some
//!   inputs;
//! - `specs/EventPorts.antt`: port assignments;
//! - `specs/Offers.antt`: how a run goes on, by the results of its members' calls;
//! - `specs/EventTrace.antt`: port faults, positions, rows and traces;
//! - `specs/EventRuns.antt`: what is run for a system, and its trace;
//! - `specs/EventRests.antt`: positions of a trace, and the rest of a trace from one on.
//!
//! The promises about a run use these definitions. How ports, rows and endings of the plain form are read is in
//! `specs/Readings.antt`, and the laws are stated in `specs/Laws.antt`.
//!
//! The laws go from expressions ([`plain_expressions_mean_the_same`]) to the whole: a judged system has exactly one
//! trace, which is that of its plain form, read as signals ([`systems_have_one_event_trace`]).
#![tactic(auto)]

mod laws;

pub use laws::{
    assignments_are_read, components_have_plain_calls, faults_are_read, members_are_plain,
    members_give_the_same, plain_expressions_mean_the_same, rests_are_read,
    successors_are_by_offers, systems_have_one_event_trace, traces_are_read,
};
