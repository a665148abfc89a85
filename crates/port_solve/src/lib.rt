//! The ports of a system: the words of all outputs and inputs for given states of the components.
//!
//! [`solve`] goes once through the outputs, in an order in which each comes after those that it needs. It looks up no name and
//! takes no memory: an `Order` has the routes of all ports as numbers. [`PortFault`] is the fault of the first output, by
//! instance and then by declaration, that faults by itself.
//!
//! A caller that gets words of some outputs from elsewhere solves ports one by one: it calls [`set_starts`] once, then
//! [`ask`] for an output, and [`feed`] for each word that becomes known, in any order.
//!
//! The layer above uses these. The definitions of right ports and of a run's fault are in `unit_tree`: `Ports` (the port
//! assignment), `Routes` (ports by numbers) and `Given` (calls of components by numbers).
//! `specs/Solved.antt` defines what the components must have, which inputs are set, and how a result is read.
//! `specs/Sound.antt` defines what is known of the connections of a judged system.
//! `specs/Steps.antt` describes how the solver proceeds; no promise depends on it.
#![tactic(auto)]

mod inputs;
mod one_by_one;
mod outputs;
mod solving;

pub use one_by_one::{ask, feed, set_starts};
pub use solving::{PortFault, solve};
