//! The crew: a run with workers, which step components ahead from guessed inputs.
//!
//! [`run_crew`] runs a plan as the serial run does, and writes the same bytes. The loop over the rows is that of `trace_rows`. A
//! coordinator in the calling thread drives it. It publishes a lane for each instance with guesses of the next rows, takes the
//! answers to required steps from the lanes, and makes each step itself that nobody has answered. The workers take tickets of the
//! lanes, answer them by units of their own, and post the answers.
//!
//! A lane whose last guess was wrong is published for one row alone, whose inputs are known. A lane whose steps are light is never
//! published, and a run without any other lane starts no worker. So workers cost little where they don't help.
//!
//! Each lane has its own lock, and no thread holds two locks. The written bytes don't depend on the contents of lanes: an answer is
//! accepted only where its key is that of the required step, and each answer is the meaning of its key. A [`Gate`] says how long
//! the coordinator waits for the workers; no promise depends on it.
//!
//! The layer above uses [`run_crew`] with its [`Report`] and [`CrewFault`], [`Gate`], [`OpenGate`] and [`Policy`]. The crate has
//! no definitions of its own. In `trace_rows`, `specs/Reports.antt` defines what is written and reported, `specs/Faults.antt` when a
//! write failed, and `specs/Passing.antt` how a driver fills cells.
#![tactic(auto)]

mod coordinator;
mod crew;
mod gate;
mod speculation;
mod worker;

pub use crew::run_crew;
pub use gate::{Gate, OpenGate};
pub use guess_board::Policy;
pub use trace_rows::{CrewFault, Report};
