//! The lanes of a run, each under its own lock, and how often each lane is published.
//!
//! [`Desk`] has the lane of each instance under a lock of its own, and [`TicketSums`] counts how the tickets ended. [`Patience`]
//! decides in each phase whether a lane is published, and for how many rows. No row depends on either. The layer above,
//! `work_crew`, shares a desk among its threads.
#![tactic(auto)]

mod desk;
mod offer;
mod patience;

pub use desk::{Desk, TicketSums};
pub use patience::Patience;
