//! Counts of the steps of a run: how often each instance limits a step or shortens one, and the summary of a step log.
//!
//! [`AgreedStep`] is a step that the components of a run agreed on, which is what a line of a step log shows. [`StepCounts`] counts
//! such steps one by one, in memory that depends on the number of instances alone. [`write_summary`] writes the summary of what was
//! counted: a table in CSV of twenty lines at most, which begins with the instances to look at first.
//!
//! Definitions: `specs/Counts.antt` defines the counts of a list of steps, `specs/Ranks.antt` the order of the instances, and
//! `specs/Summaries.antt` the text of the summary. `specs/Fields.antt` has the fields that the lines of the log have, too.
#![tactic(auto)]

mod counts;
mod ranks;
mod step;
mod text;

pub use counts::{InstanceCounts, StepCounts};
pub use step::{AgreedStep, Limiter, Shortening};
pub use text::{name_of, write_summary};
