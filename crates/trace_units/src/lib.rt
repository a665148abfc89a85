//! The units of a plan, one for each instance: components whose ports are solved and which make steps.
//!
//! [`Units`] implements what `port_solve` needs of components (`Gets` of `unit_tree`). Its other calls are those of a run with
//! one component: get its limit, make its step, and restore a state. Their clauses say that each is the call of the component
//! in the definitions of a run. Only [`Units::new`] takes memory.
//!
//! Definitions: `specs/Fleets.antt` states what contracts see of units, and what a step of one does. `specs/Members.antt` has
//! their invariants.
#![tactic(auto)]

mod units;

pub use units::Units;
