//! The serial run: the rows of a plan's run, written by the calling thread.
//!
//! [`run_alone`] writes the header and each row of the whole trace as one piece, and reports how and where it ended.
//! [`put_rest`] does so without a header, from the position at which a run was opened. Both make every step themselves: they
//! start no thread and never wait, and they always return. The loop over the rows is that of `trace_rows`.
//!
//! [`step_all`] makes the steps of one phase, for a caller that follows a run without its rows.
//!
//! What is written and reported is that of the system's one trace, or of the one rest of a position: see `Reports` of
//! `trace_rows`, whose [`Report`] and [`CrewFault`] these calls return. `specs/Alone.antt` says that no step in the report came
//! from others.
#![tactic(auto)]

mod alone;
mod run;

pub use alone::step_all;
pub use run::{put_rest, run_alone};
pub use trace_rows::{CrewFault, Report};
