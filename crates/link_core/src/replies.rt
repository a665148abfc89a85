//! The steps of all instances in a trial or a redo, by the replies that are known.
ghost use Rattle.std.specs.Prelude.{◌≡◌, ◌≤◌, ◌+◌, ◌^◌, length};
ghost use Rattle.link_core.specs.KnownSteps.{slot_known, steps_known};

use link_laws::Said;
use step_rule::{Slot, Step, Steps, is_held_by};
use super_time::local_step;
use trace_plan::Plan;

/// The replies to a step of `h` from `t`, as far as they are known.
#[derive(Clone, Copy)]
pub(crate) struct Replies<'a> {
    pub(crate) plan: &'a Plan,
    pub(crate) said: &'a [Option<Said>],
    pub(crate) t: u64,
    pub(crate) h: u64,
    ghost long: { length said.now ≡ length plan.now.run.members },
    ghost end: { t + h ≤ 10 ^ 15 },
}

/// Returns the slot of an instance that is held, or that makes a step.
fn slot(held: bool, said: Option<Said>) -> Slot
    ensures { result ≡ slot_known held said }
{
    match said {
        _ if held => Slot::Held,
        None => Slot::Empty,
        Some(Said::Accepted(accepted)) => Slot::Took(accepted),
        Some(Said::Fault(fault)) => Slot::Failed(fault),
    }
}

impl Steps for Replies<'_> {
    ghost steps = { λ replies. steps_known replies.t replies.h replies.plan.now.run.members replies.said.now };

    fn count(&self) -> usize {
        self.said.len()
    }

    fn step(&self, instance: usize) -> Step {
        // Called for its clauses, which state how many instances there are.
        let _ = self.plan.instances();
        let factor = self.plan.factor(instance as u32);
        let asked = local_step(factor, self.t, self.h);
        Step {
            factor,
            asked,
            slot: slot(is_held_by(self.h, asked), self.said[instance]),
        }
    }
}
