//! The plain form of a system: each event port as two plain ports, which is what is run.
//!
//! The layer above uses [`plain_form`], and [`copy_system`] where it needs a copy of a system as it is written. The
//! definition is in `Plain` of `unit_tree`: what an expression, a step line, a unit and a connection becomes. The
//! code goes over the tree once. It looks up each name among the instances, units and event ports, of which a
//! well-formed system has at most 64 each.
#![tactic(auto)]

mod copies;
mod expressions;
mod lines;
mod systems;
mod units;

pub use systems::{copy_system, plain_form};
