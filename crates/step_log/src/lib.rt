//! What a run reports of its steps: a log with a line for each step that the components agreed on, or the summary of these steps.
//!
//! A line says why the step is as long as it is: the proposed step and what limits it, the agreed step and which component
//! accepted less, and how many components are held. The summary counts the steps that each component limits or shortens.
//! [`report_steps`] runs a plan and writes one of the two.
//!
//! Definitions: `specs/Steps.antt` defines the agreed step of a position by the results of the components' calls there, with the
//! definitions of a run. So it serves systems with event ports as they are written, and their plain forms. `specs/Lines.antt` has
//! the text of a line, and `specs/Reports.antt` the two texts of a trace and what a call writes. A law says that the steps of the
//! plain form, which is what runs, are those of the system as it is written ([`steps_are_read`]).
#![tactic(auto)]

mod laws;
mod logging;
mod negotiating;
mod report;
mod summarizing;
mod text;
mod trying;

pub use laws::steps_are_read;
pub use report::{RunEnd, StepReport, report_steps};
