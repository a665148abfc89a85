//! What the commands of all programs share: the plan of a text, and how the end of a run is reported.
//!
//! The layer above reads a text by [`accept`] or [`plan_of`]. It reports how a run ended by [`status_of`] and [`ending_notes`]. The other
//! notes are those of single commands. `cosim_answers` defines each note and each status.
#![tactic(auto)]

mod notes;
mod plans;

pub use notes::{
    counts as counts_note, ending as ending_notes, nodes as nodes_note, report as report_note,
};
pub use plans::{accept, make_plan, plan_of, status_of};
