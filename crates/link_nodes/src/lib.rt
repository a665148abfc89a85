//! Two nodes in one process, and their facts as bytes.
//!
//! [`run_nodes`] runs a plan by two nodes for some number of rounds. They own its instances by turns. Facts are lost, come twice and
//! late, and node 1 starts again from time to time. It writes the header and the rows that node 0 has committed, of the one trace.
//! [`encode`] writes a fact as 22 bytes, and [`decode`] reads them. By their clauses each is the inverse of the other, and other bytes
//! have no fact.
//!
//! Definitions: `specs/Rounds.antt` (what happens in each round), `specs/Shown.antt` (what is written and returned),
//! `specs/Settled.antt` (after which round neither changes) and `specs/Wire.antt` (fields and encodings). `specs/ShownRows.antt`,
//! `specs/Exchanges.antt` and `specs/Decoding.antt` describe how the code proceeds; no promise depends on them.
#![tactic(auto)]

mod arriving;
mod exchange;
mod fields;
mod laws;
mod row_room;
mod run;
mod spans;
mod transit;
mod wire;

pub use laws::{rounds_keep, rounds_settle};
pub use run::{Nodes, run_nodes};
pub use trace_rows::CrewFault as NodesFault;
pub use wire::{decode, encode};
