//! Laws of runs, over their definitions alone.
//!
//! What follows from the definitions of `unit_tree` about port assignments, steps and traces, without code. There is
//! only one assignment ([`assignments_are_unique`]), a step keeps words in their types ([`steps_keep_words`]), a
//! well-formed system without a cycle has one trace ([`systems_have_one_trace`]), a trace ends with the rest of each of
//! its positions ([`rests_end_traces`]), and so on. `specs/RunLaws.antt` and `specs/RestLaws.antt` state the laws. The
//! lemmas of `proofs/` are for the crates above, among them those on orders of places (`PlaceOrders`, `PlainOrders`),
//! positions (`PositionLaws`) and traces (`RunTraces`).
#![tactic(auto)]

mod laws;

pub use laws::{
    assignments_are_unique, ends_are_judged_in_order, ordered_runs_have_one_trace,
    outputs_look_at_needs, positions_have_one_rest, rests_end_traces, runs_keep_words,
    steps_are_negotiated, steps_keep_words, systems_have_one_trace, tails_go_on,
    undefined_outputs_fault,
};
