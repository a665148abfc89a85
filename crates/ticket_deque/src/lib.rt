//! A deque to which one owner adds items and from which several thieves may take them, first in first out.
//!
//! [`make`] returns the owner's end, a [`Hand`], and a first thief's end, a [`Reach`]. The hand adds items at the back and takes
//! them at the front. A reach takes them at the front too, in any thread, and [`Reach::split`] makes more of them. The
//! implementation is the ruled form of `crossbeam_deque`.
//!
//! # What the layer above may use
//!
//! In contracts a hand has its deque, the items that it added in order, and the places and items that it took. A place is the
//! number of an added item, counted from 0. A reach has its deque, what it took, and what the reaches that it joined had taken
//! (`specs/Ends.antt`). Each call says how it changes these lists. Nothing else is known of a deque that others use.
//!
//! # The rule
//!
//! Between any two steps on a deque, its queue and the views of all its ends are in order (`specs/Rule.antt`). The queue has
//! the added items from some place on, every place before it was taken once by one end, and a taken item is the one that was added
//! at its place. [`each_item_once`] and [`each_place_taken_once`] state what follows: the taken items and those in the queue are the
//! added ones, each once, and no place has two takers. `specs/Steps.antt` defines what an end learns from its own step, and
//! `specs/Laws.antt` the two laws.
//!
//! A pass is the token of an end. A reach has its own, and keeps the passes of the reaches that it joined. Their views stay, so
//! joining two reaches needs no step on the deque. Later takes use its own pass, at places after all that this pass took.
//!
//! # What no clause says
//!
//! No clause says that a steal ends while other threads go on stealing, that two threads run, or that memory is there. Without
//! another thread, a steal returns the item that is there, which the tests show. One test has two threads.
//!
//! A `None` comes with a state that follows the rule and has an empty queue, in which an end did just what this one did. The ruled
//! deque keeps that this was the state of this deque during the call. The tests show that an item that is there is found.
#![tactic(auto)]

mod hand;
mod laws;
mod passes;
mod reach;
mod view;

pub use hand::{Hand, make};
pub use laws::{each_item_once, each_place_taken_once};
pub use reach::Reach;
pub use view::{InOrder, View};
