//! The written rows of a run: header and rows, one piece each, with their tally, the report of the run and its faults.
//!
//! [`put_header`] writes the header of a trace, and [`RowRoom::put_row`] the row at which a run is, which a [`Tally`] counts.
//! A [`Report`] describes a run that came to its end, and a [`CrewFault`] one that was given up. The layer above decides how a
//! run gets from one row to the next, and who steps its instances. No crate below but `cosim_io` knows of sinks.
//!
//! The definitions that contracts use are in `specs/`. `Reports` defines what a run writes and reports from any position, the whole
//! trace as a case of it, and prefixes of its text. `Lines` has the effect of writing a header and a row. `Sums` has the sum of
//! the words that a trace shows. `Passing` defines how a run passes from stand to stand, whoever fills its cells. `Bounds` states how
//! the rows of a run bound its work, which is the law [`work_is_bounded`]. The invariant of a loop over rows, from the opening to
//! the end, is in the lemmas of `proofs/RunKept.antt` and `proofs/RunEnds.antt`.
#![tactic(auto)]

mod drive;
mod fault;
mod laws;
mod report;
mod rows;
mod tally;

pub use drive::{Drive, put_rest, put_trace};
pub use fault::CrewFault;
pub use laws::work_is_bounded;
pub use report::Report;
pub use rows::{RowRoom, put_header};
pub use tally::Tally;
