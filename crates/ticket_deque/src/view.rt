// The views of the ends in proofs, and the rule that relates the ends to the queue.
use crossbeam_deque::Pass;
use crossbeam_deque::protocol::{Outcome, Protocol};
use std::alloc::Global;
use std::collections::LinkedList;

/// What one end of a deque has done. It exists only in proofs: no value of it is made.
pub enum View<T> {
    /// The owner's end, a hand: the items that it added, in order, and the places and items that it took.
    Owner(LinkedList<T>, LinkedList<(u64, T)>),
    /// A thief's end, of a reach: the places and items that it took.
    Thief(LinkedList<(u64, T)>),
}

/// The rule of a deque, over the items in it and the views of all its ends.
pub struct InOrder;

impl<T> Protocol<T, View<T>> for InOrder {
    ghost use Rattle.std.specs.Prelude.{[]};
    ghost use Rattle.ticket_deque.specs.declared.view.View.TheVariants.{Owner, Thief};
    ghost use Rattle.ticket_deque.specs.Rule.{IsInOrder};

    ghost holds = { IsInOrder };

    ghost first = { Owner [] [] };

    ghost guest = { Thief [] };
}

/// The effect of an added item on the owner's view.
pub struct Put;

impl<T> Outcome<T, View<T>> for Put {
    ghost use Rattle.std.specs.Prelude.{◌≡◌};
    ghost use Rattle.ticket_deque.specs.Steps.{after_put};

    ghost then = { λ v xs w. w ≡ after_put v xs };
}

/// The effect of a take on the view of the end that takes.
pub struct Take;

impl<T> Outcome<T, View<T>> for Take {
    ghost use Rattle.ticket_deque.specs.Steps.{Takes, WasEmpty};

    ghost then = { Takes };

    ghost empty = { WasEmpty };
}

/// The token of an end, which has no bytes.
pub type EndPass<T> = Pass<T, View<T>, Global>;
