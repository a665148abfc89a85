// The owner's end of a deque.
ghost use Rattle.std.specs.Prelude.{◌≡◌, [], ◌∷◌, ◌++◌, ◌≤◌, length, IfOk, IfErr, OnOk, OnErr, IfSome, IfNone};
ghost use Rattle.ticket_deque.specs.Ends.{HandTakes, HandFindsNone};

use crate::reach::Reach;
use crate::view::{InOrder, Put, Take, View};
use crossbeam_deque::Worker;
use std::alloc::{AllocError, Global};
use std::marker::Model;

// The number of slots of a new deque: so many items can be added without taking memory.
const ROOM: usize = 64;

/// The owner's end of a deque: it adds items at the back, and takes them at the front.
///
/// Contracts see it as `HandState`: its deque, the items that it added, and the places and items that it took.
#[derive(Drop)]
pub struct Hand<T> {
    worker: Worker<T, Global, View<T>, InOrder>,
}

impl<T> Model for Hand<T> {
    ghost use Rattle.ticket_deque.specs.Ends.{HandState};

    ghost Value = { HandState T };

    ghost use Rattle.ticket_deque.specs.HandFields.{hand_state, IsHand};

    ghost view = { hand_state };

    ghost invariant = { IsHand };
}

/// Makes an empty deque. Returns its hand, which has added and taken nothing, and a first reach, which has taken nothing.
///
/// Fails with `AllocError` where there is no memory for them.
pub fn make<T: Drop>(alloc: Global) -> Result<(Hand<T>, Reach<T>), AllocError>
    ensures hand { IfOk result (λ ends. (ends.0.puts ≡ []) × (ends.0.taken ≡ [])) }
    ensures reach { IfOk result (λ ends. (ends.1.deque ≡ ends.0.deque) × (ends.1.taken ≡ []) × (ends.1.joined ≡ [])) }
{
    let worker = Worker::fifo_as(alloc, ROOM)?;
    let reach = Reach::of(alloc, worker.stealer()?)?;
    Ok((Hand { worker }, reach))
}

impl<T: Drop> Hand<T> {
    /// Adds an item at the back.
    ///
    /// Fails where the deque is full and there is no memory to grow: it returns the item, and nothing has changed. The first 64
    /// items always find a slot.
    pub fn put(&mut self, item: T) -> Result<(), T>
        ensures ok { OnOk result (self.new ≡ record self.old { puts = self.old.puts ++ item ∷ [] }) }
        ensures refused { IfErr result (λ back. (back ≡ item) × (self.new ≡ self.old)) }
        ensures refused_only_after_64 { OnErr result (64 ≤ length self.old.puts) }
    {
        self.worker.push_as::<Put>(item)
    }

    /// Takes the first item.
    ///
    /// Returns `None` only where the deque was empty at some moment of this call.
    pub fn next(&mut self) -> Option<T>
        ensures some { IfSome result (HandTakes self.old self.new) }
        ensures none { IfNone result (HandFindsNone self.old self.new) }
    {
        self.worker.pop_as::<Take>()
    }
}
