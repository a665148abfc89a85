//! What is made once for a run.
ghost use Rattle.std.specs.Prelude.{◌≡◌, map, IfOk};
ghost use Rattle.trace_core.specs.Opening.{AreSeated};

use crate::seat::Seat;
use fixed_words::NoMemory;
use snap_store::Snaps;
use std::alloc::Global;
use step_rule::Slot;
use trace_units::Units;

/// Returns a seat for each unit, with a snapshot of its state.
pub(crate) fn seats_of(
    alloc: Global,
    units: &Units,
    snaps: &mut Snaps,
) -> Result<Vec<Seat>, NoMemory>
    ensures { IfOk result (λ seats. AreSeated snaps.new seats.items units.now) }
{
    let mut seats = Vec::new(alloc);
    for instance in 0..units.count() {
        let id = snaps.save(alloc, units.state(instance))?;
        let before = Vec::from_slice(alloc, units.inputs(instance))?;
        seats.push(Seat {
            id,
            before,
            time: 0,
            step: 0,
            slot: Slot::Held,
        })?;
    }
    Ok(seats)
}

/// Returns the states of all units.
pub(crate) fn states_of(alloc: Global, units: &Units) -> Result<Vec<Vec<i64>>, NoMemory>
    ensures { IfOk result (λ states. map (λ state. state.items) states.items ≡ units.now.states) }
{
    let mut states = Vec::new(alloc);
    for instance in 0..units.count() {
        states.push(Vec::from_slice(alloc, units.state(instance))?)?;
    }
    Ok(states)
}
