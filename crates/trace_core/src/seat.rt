ghost use Rattle.std.specs.Prelude.{◌≡◌};
ghost use Rattle.trace_core.specs.Slots.{slot_for, is_empty};

use fixed_words::Fault;
use snap_store::SnapId;
use step_rule::Slot;

/// Returns whether the step was not made yet.
pub(crate) fn is_empty(slot: Slot) -> bool
    ensures { result ≡ is_empty slot }
{
    matches!(slot, Slot::Empty)
}

/// Returns the slot of a step that was made.
pub(crate) fn slot_of(made: Result<u64, Fault>) -> Slot
    ensures { result ≡ slot_for made }
{
    match made {
        Ok(accepted) => Slot::Took(accepted),
        Err(fault) => Slot::Failed(fault),
    }
}

/// What a run keeps of an instance in addition to its unit: the snapshot of its committed state, the words of its inputs at the
/// row before, the local time and the local step of the phase, and its slot.
#[derive(Drop)]
pub(crate) struct Seat {
    pub(crate) id: SnapId,
    pub(crate) before: Vec<i64>,
    /// The local time of the phase, in local ticks.
    pub(crate) time: u64,
    /// The length of its step, in local ticks.
    pub(crate) step: u64,
    pub(crate) slot: Slot,
}
