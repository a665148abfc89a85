//! Runs of nests: the trace of a system of groups, defined with the ports of its groups and components, without code.
//!
//! - `specs/NestPorts.antt`: the scopes of a nest's lines, the ports that they name, and how these are connected;
//! - `specs/NestTrace.antt`: port assignments in which the ports of groups have values too, and traces with these.
//!
//! It is a law that such a trace is the trace of the flat system ([`nests_run_as_they_are_flat`]), and also that of the
//! text which `flatten` prints ([`nested_texts_run_flat`]). The values at ports of groups depend only on those of
//! components ([`groups_have_what_components_have`]). `specs/Laws.antt` states all three.
//!
//! `specs/WorkedNest.antt` has a small nest whose flat system and ports were worked out by hand ([`a_nest_is_worked`]).
#![tactic(auto)]

mod laws;
mod worked;

pub use laws::{
    groups_have_what_components_have, nested_texts_run_flat, nests_run_as_they_are_flat,
};
pub use worked::a_nest_is_worked;
