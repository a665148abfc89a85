//! Plans of runs: a judged system with all that its run needs, computed once.
//!
//! [`Plan::new`] returns the plan of a checked system: an order of its outputs, an image for each instance, the columns of
//! its trace, and its numbers in ticks. Where some output has no order, [`PlanFault::Loop`] names the first one.
//! [`Plan::ordered`] makes the plan from an order that exists already.
//!
//! The layer above sees a plan as its system with the run of its plain form (`Planned` of `specs/Plans.antt`). It uses the
//! calls of [`Plan`], each of which returns what `Planned` determines. Only [`Plan::new`] and [`Plan::ordered`] take memory. The laws
//! [`headers_can_be_printed`] and [`rows_can_be_printed`] say that a trace can be printed by its columns; [`Plan::columns`] has
//! them as clauses. A caller that serves only small systems asks [`row_limit_of`] and [`instances_of`] before it makes a plan.
//!
//! Parts by file: `ordering` (the order, or the loop), `fitting` (what each instance needs), `numbers` (factors, lengths and
//! budgets), `columns` (the columns). The invariants of a plan are in `specs/Keeps.antt`.
#![tactic(auto)]

mod columns;
mod fault;
mod fitting;
mod laws;
mod numbers;
mod ordering;
mod plan;

pub use fault::PlanFault;
pub use laws::{headers_can_be_printed, rows_can_be_printed};
pub use numbers::{instances_of, row_limit_of};
pub use plan::Plan;
