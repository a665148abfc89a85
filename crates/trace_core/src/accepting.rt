//! The result of a step, stored in the units of a run.
ghost use Rattle.std.specs.Prelude.{◌≡◌, ◌<◌, [], length, slice_index_or, IfOk};
ghost use Rattle.trace_core.specs.Accepting.{accepted_of, with_step};
ghost use Rattle.trace_core.specs.Slots.{slot_for};
ghost use Rattle.unit_answers.specs.Answers.{step_told};

use step_rule::Slot;
use trace_units::Units;
use unit_answers::Answer;

/// Sets the state of an instance to the one that its step led to, and returns its slot. After a fault all units stay as they are.
pub(crate) fn take_step(units: &mut Units, instance: u32, answer: &Answer) -> Slot
    requires there { instance < length units.old.plan.run.members }
    requires as_long { IfOk (step_told answer.now) (λ moved. length moved.state ≡ length (slice_index_or units.old.states instance [])) }
    ensures slot { result ≡ slot_for (accepted_of (step_told answer.now)) }
    ensures units { units.new ≡ with_step units.old instance (step_told answer.now) }
{
    match answer {
        Answer::Moved { state, accepted } => {
            units.restore(instance, state.as_slice());
            Slot::Took(*accepted)
        }
        Answer::Failed { fault } => Slot::Failed(*fault),
    }
}
