//! The run of a plan: from one row of the trace to the next.
//!
//! [`Run::open`] opens a run at the first point of its plan. In each phase [`Run::wants`] returns the required steps. They are
//! made one by one, in any order, by [`Run::compute`], or taken by [`Run::accept`] from answers with their proof. Then
//! [`Run::settle`] goes on to a redo, to the next row, or to the end. So a run reaches the whole trace, and takes no memory after
//! it was opened.
//!
//! [`Run::open_at`] opens a run at any position at which a run may be, on the trace or not. It goes on from there in the same way.
//!
//! The layer above uses [`Plan`] and [`Run`]. A step log also reads the limit of each instance ([`Run::limit`]) and the result of its
//! step ([`Slot`], `specs/Slots.antt`). What contracts see of a run, and its invariant (`Stands`), are in
//! `specs/Runs.antt`. `specs/Settling.antt` defines what settling does, and `specs/OpenedAt.antt` the positions at which a run is
//! opened. They use the definitions of a run in `unit_tree`. `specs/Seats.antt`, `specs/Keeping.antt`, `specs/Accepting.antt`
//! and `specs/StateWords.antt` describe how the code proceeds; no promise depends on them.
#![tactic(auto)]

mod accepting;
mod course;
mod laws;
mod opening;
mod opening_at;
mod phase;
mod ports;
mod run;
mod seat;
mod steps;

pub use laws::positions_fit_once;
pub use opening_at::OpenFault;
pub use phase::{Phase, Row, Settle};
pub use run::Run;
pub use step_rule::Slot;
pub use trace_plan::{Plan, PlanFault};
