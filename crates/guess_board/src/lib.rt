//! Lanes: steps of instances that are planned ahead, and their answers.
//!
//! A [`Lane`] is for one instance of a run. It is published with the state of the instance at a row and with a line of planned
//! steps, which [`guess_line`] guesses. It makes a [`Ticket`] for those without an answer. It accepts the answers to a ticket where
//! each is the next one that it needs. When it is published again, it keeps the answers that fit the new plan. So for any guesses,
//! and whoever answers, its answers are a prefix of the chain that its state and line determine.
//!
//! The layer above uses all that is named here. A [`Record`] is what contracts see of an event in a journal. Definitions:
//!
//! - `specs/Cells.antt`: planned cells
//! - `specs/Chains.antt`: chains, the next needed step, which answers are kept and appended
//! - `specs/Journals.antt`: journals and their replay
//! - `specs/Lanes.antt`: lanes, tickets, and their invariants
//! - `specs/Events.antt`: the effect of each call
//! - `specs/Guesses.antt`: guessed lines
//! - `specs/Laws.antt`: laws
//!
//! `specs/Booking.antt`, `Keeping.antt`, `Matching.antt` and `Slots.antt` describe how the code proceeds; no promise depends on them.
#![tactic(auto)]

mod cell;
mod counts;
mod fault;
mod guesses;
mod journal;
mod lane;
mod laws;
mod needs;
mod slots;
mod ticket;
mod working;

pub use cell::Cell;
pub use counts::LaneCounts;
pub use fault::LaneFault;
pub use guesses::{Outlook, Policy, guess_line};
pub use journal::Record;
pub use lane::Lane;
pub use laws::{
    chains_are_short, chains_go_on, kept_runs_are_longest, needs_are_answered_next, tickets_fit,
};
pub use ticket::Ticket;
pub use working::work_off;
