//! The order in which the outputs of a system are computed, and its connections by numbers.
//!
//! An output may need inputs of its component, and so the outputs that are connected to them. [`order`] sorts all
//! outputs of a checked system so that each comes after all that it depends on. With the order it returns the routes of
//! all ports as numbers, so that code which goes along the order looks up no name. Where some output is on a cycle of
//! needs, or depends on one that is, [`OrderFault::Loop`] names the first such output.
//!
//! The layer above uses [`order`], [`OrderFault`] and [`output_names`]. Orders and routes are defined in `unit_tree`:
//! `Routes` (the routes of a composition, and an order of it), `Ports` (an order of places) and `Orders` (orderly lists
//! of outputs, and the first output without one). `specs/Faults.antt` defines which output two numbers name. How the
//! code works is defined in `specs/Wiring.antt` (components and their ports), `specs/Origins.antt` (the source of an
//! input, by tables of names), `specs/Routing.antt` (routes, added one by one) and `specs/Sorting.antt` (places, sorted
//! one by one). [`cycles_are_judged_once`] is a law.
#![tactic(auto)]

mod components;
mod fault;
mod laws;
mod numbering;
mod ordering;
mod origins;
mod routing;
mod sorting;

pub use components::PortKey;
pub use fault::OrderFault;
pub use laws::cycles_are_judged_once;
pub use ordering::{order, output_names};
