//! Which inputs of components the targets of a nest's connections reach.
//!
//! The layer above makes the [`Ways`] of a nest once. For each connection it calls [`reached`], which returns the
//! inputs of components that the connection reaches, up to the number of connections that are still allowed. However
//! many paths lead to an input on the way, a walk goes on from it once in each scope.
//!
//! - Each input of a group that a connection leads to is computed once. Its steps are kept by numbers (`steps.rt`).
//!   They are the same in each scope of the group: a scope is given by how many places later it is in the list of all
//!   scopes.
//! - A chain of inputs that have one line each is one step, to its end.
//! - Where an input reaches few inputs of components, these are kept too (`kept.rt`), also as a set of numbers
//!   (`numbers.rt`, `sets.rt`).
//! - A walk (`walk.rt`) adds what is kept, or takes the steps. It records in which scopes an input is finished
//!   (`done.rt`), so that it is visited once in each. It also records the numbers of what was added from each scope, so
//!   that an input which reaches only such inputs is not visited.
//! - Few connections can reach more than is kept, since a system has a limited number of them.
//!
//! Definitions: `specs/Reaching.antt` (inputs by numbers, and known inputs), `specs/Sets.antt` (sets of numbers, and
//! what is kept by them) and `specs/Walking.antt` (what a walk has added, and its result).
#![tactic(auto)]

mod done;
mod ends;
mod guide;
mod kept;
mod known;
mod numbers;
mod scopes;
mod sets;
mod steps;
mod targets;
mod walk;

pub use guide::Guide;
pub use known::Ways;
pub use targets::reached;
