// A thief's end of a deque.
ghost use Rattle.std.specs.Prelude.{◌≡◌, [], ◌++◌, IfOk, IfSome, IfNone};
ghost use Rattle.crossbeam_deque.specs.Handles.{view, IsPassOf, SamePass, stealer_deque, stealer_flavor};
ghost use Rattle.ticket_deque.specs.Steps.{TakesFirst, WasEmpty};
ghost use Rattle.ticket_deque.specs.Ends.{ReachTakes, ReachFindsNone, entries_of};

use crate::passes::Passes;
use crate::view::{EndPass, InOrder, Take, View};
use crossbeam_deque::{Steal, Stealer};
use std::alloc::{AllocError, Global};
use std::marker::Model;
use std::sync::Wait;

type Thief<T> = Stealer<T, Global, View<T>, InOrder>;

/// A thief's end of a deque: it takes items at the front, in any thread.
///
/// Contracts see it as `ReachState`: its deque, the places and items that it took, and those that the reaches which it joined had
/// taken.
#[derive(Drop)]
pub struct Reach<T> {
    stealer: Thief<T>,
    passes: Box<Passes<T>>,
}

impl<T> Model for Reach<T> {
    ghost use Rattle.ticket_deque.specs.Ends.{ReachState};

    ghost Value = { ReachState T };

    ghost use Rattle.ticket_deque.specs.ReachFields.{reach_state, IsReach};

    ghost view = { reach_state };

    ghost invariant = { IsReach };
}

impl<T: Drop> Reach<T> {
    /// Returns a reach of the stealer's deque that has taken nothing.
    pub(crate) fn of(alloc: Global, stealer: Thief<T>) -> Result<Reach<T>, AllocError>
        requires { stealer_flavor stealer ≡ 0 }
        ensures { IfOk result (λ reach. (reach.deque ≡ (stealer_deque stealer).0) × (reach.taken ≡ []) × (reach.joined ≡ [])) }
    {
        let passes = Passes::alone(alloc, stealer.pass())?;
        Ok(Reach { stealer, passes })
    }

    /// Takes the first item.
    ///
    /// Returns `None` only where the deque was empty at some moment of this call. Where another thread was first, it tries again.
    pub fn steal<R: Wait>(&mut self, rt: &R) -> Option<T>
        ensures some { IfSome result (ReachTakes self.old self.new) }
        ensures none { IfNone result (ReachFindsNone self.old self.new) }
    {
        steal_first(rt, &self.stealer, &mut self.passes.own)
    }

    /// Returns a new reach of the same deque, which has taken nothing.
    ///
    /// Fails with `AllocError` where there is no memory for it.
    pub fn split(&mut self, alloc: Global) -> Result<Reach<T>, AllocError>
        ensures same { self.new ≡ self.old }
        ensures new { IfOk result (λ reach. (reach.deque ≡ self.old.deque) × (reach.taken ≡ []) × (reach.joined ≡ [])) }
    {
        Reach::of(alloc, self.stealer.clone()?)
    }

    /// Joins another reach of the same deque: this one then has what both took. It takes no memory.
    pub fn join(&mut self, other: Reach<T>)
        requires { other.deque ≡ self.old.deque }
        ensures { self.new ≡ record self.old { joined = self.old.joined ++ entries_of other } }
    {
        let mut passes = other.passes;
        passes.next = self.passes.joined.take();
        self.passes.joined = Some(passes);
    }
}

// Takes the first item, by this pass.
fn steal_first<T, R: Wait>(rt: &R, stealer: &Thief<T>, pass: &mut EndPass<T>) -> Option<T>
    requires fifo { stealer_flavor stealer.now ≡ 0 }
    requires pass { IsPassOf (stealer_deque stealer.now) pass.old }
    ensures same { SamePass pass.old pass.new }
    ensures some { IfSome result (λ item. TakesFirst (view pass.old) item (view pass.new)) }
    ensures none { IfNone result ((view pass.new ≡ view pass.old) × WasEmpty (view pass.old)) }
{
    for _ in rt.forever() {
        match stealer.steal_as::<Take>(pass) {
            Steal::Success(item) => return Some(item),
            Steal::Empty => return None,
            Steal::Retry => {}
        }
    }
    unreachable!()
}
