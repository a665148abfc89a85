//! Two nodes that run one system together: each owns some of the instances, and learns facts of the other's.
//!
//! A [`Node`] makes the facts of its own instances as far as its knowledge allows. It goes on to the next row, or ends, exactly where no
//! fact of the row is missing. It takes facts that the other one made, in any order and any number of times. It takes memory before
//! anything changes, so that a call that fails has no effect. A [`Pair`] has both nodes, and is driven by events.
//!
//! Facts, the effect of each call of a node, and the laws over every list of events are those of `link_laws`. `specs/NodeStates.antt`
//! states what contracts see of a node. `specs/KnownSteps.antt`, `specs/Noted.antt`, `specs/Ready.antt`, `specs/Inner.antt` and
//! `specs/Joined.antt` describe how the code proceeds; no promise depends on them.
#![tactic(auto)]

mod course;
mod keeping;
mod lengths;
mod node;
mod notes;
mod opening;
mod owners;
mod pair;
mod replies;
mod stage;
mod steps;
mod taking;
mod words;
mod working;

pub use link_laws::{Asked, Fact, PairEvent, Said, Seen, Taken};
pub use node::{Node, NodeRow};
pub use owners::by_turns;
pub use pair::{Pair, deliver};
