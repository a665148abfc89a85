//! Two nodes that run one system together: the facts that they exchange, the events of a pair, and the laws over every list of
//! events. Definitions and laws, without code.
//!
//! A [`Fact`] is one item of a row: an output, a limit, or the result of a step. A [`Stage`] is what a row requires next, by what is
//! known of it. [`PairEvent`] is an event of a node, and [`Taken`] the result of a call.
//!
//! Definitions:
//!
//! - `specs/Boards.antt`: the facts of a position, and what is known of them
//! - `specs/Stages.antt`: what a row requires next
//! - `specs/Nodes.antt`: the effect of each call of a node
//! - `specs/Making.antt`: the facts that a node makes from what it knows
//! - `specs/Pairs.antt`: pairs and events
//! - `specs/Keeping.antt`: the invariant of nodes
//! - `specs/Lengths.antt`: which facts are short
//! - `specs/Laws.antt`: over every list of events each listed fact is the true one of its row, and each node has its part of the place
//!   of its number in the one trace, also after a restart
//! - `specs/Progress.antt`: nodes make all facts that can be made, and commit as soon as they know all facts of a row
#![tactic(auto)]

mod fact;
mod laws;
mod pair_event;
mod progress;
mod stage;
mod taken;

pub use fact::{Asked, Fact, Said, Seen};
pub use laws::{
    events_keep, facts_are_functional, facts_are_short, passes_are_enough, rules_are_right,
    stages_are_right,
};
pub use pair_event::PairEvent;
pub use progress::{facts_are_dropped, facts_are_made, rows_are_committed};
pub use stage::Stage;
pub use taken::Taken;
