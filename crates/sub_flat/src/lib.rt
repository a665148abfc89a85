//! Nests made flat: groups of components as one system of components.
//!
//! [`flatten`] returns the flat system of a nest, or the least rule of groups that it breaks, at the least line.
//! [`into_flat`] makes the system from the nest itself, which it takes. The layer above uses it after
//! [`nest_text::read_nest`].
//!
//! Names and scopes are those of `nest_names`. `nest_ways` computes which inputs connections reach.
//!
//! Definitions: `specs/Flattening.antt` of nest_names (the flat system) and `specs/NestRules.antt` (which nests have
//! none). How flattening works is defined in `specs/FlatReading.antt` (early ends) and `specs/Searching.antt` (groups
//! that contain themselves).
#![tactic(auto)]

mod asks;
mod cycles;
mod fault;
mod flat;
mod flattening;
mod judge;
mod laws;
mod levels;
mod samples;

pub use flattening::{flatten, into_flat};
pub use laws::nests_are_judged_once;
pub use nest_text::{Bind, Group, Nest, NestFault, read_nest};
