//! Worlds: a run with all that may happen to it, as one list of events; and replays of drawn events.
//!
//! A [`World`] is a run with a lane for each of its instances and a hand of tickets for each worker. [`World::apply`] does any
//! one [`Event`] and returns a [`Reply`]. In any order, workers take tickets, steal and post, and the run publishes, finds,
//! computes and settles. [`World::drain`] gives back all tickets. All that threads do with shared lanes is such a list of events.
//! So what holds of every list holds for any interleaving ([`every_interleaving_is_told`]).
//!
//! [`replay`] drives a world from its opening to the end of its run by rounds of events. The events of the workers are drawn
//! from a seed. It writes the trace, and returns how many events of each kind there were ([`Counts`]).
//!
//! The layer above uses all that is named here. The public functions without a body are laws. Definitions:
//!
//! - `specs/Worlds.antt`: worlds, their invariant, and the opened one
//! - `specs/Events.antt`: the effect of each event, and where it is refused
//! - `specs/Interleavings.antt`: lists of events with their replies, and what holds of each
//! - `specs/Tickets.antt`: tickets in hands, and drained worlds
//! - `specs/Replays.antt`: the events of a replay, and its counts
//!
//! `specs/Keeping.antt`, `specs/Draining.antt` and `specs/Rounds.antt` describe how the code keeps a world, drains it and makes rounds;
//! no promise depends on them.
#![tactic(auto)]

mod counts;
mod draws;
mod event;
mod laws;
mod opening;
mod replays;
mod replies;
mod rounds;
mod world;

pub use counts::Counts;
pub use draws::{next_draw, worker_event};
pub use event::{Event, Reply};
pub use laws::{
    events_have_one_outcome, every_interleaving_is_told, every_seed_has_one_replay,
    tickets_are_in_hands,
};
pub use replays::{ReplayFault, replay};
pub use world::World;
