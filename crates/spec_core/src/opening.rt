//! What is made once for a world.
ghost use Rattle.std.specs.Prelude.{◌≡◌, [], replicate, map, IfOk};
ghost use Rattle.std.specs.List.{AllZip};
ghost use Rattle.spec_core.specs.Keeping.{AreLanes, IsUnitOf};
ghost use Rattle.spec_core.specs.Worlds.{AreLanesOpened};

use fixed_words::NoMemory;
use guess_board::{Lane, Ticket};
use std::alloc::Global;
use std::sync::Arc;
use trace_core::Plan;
use unit_exec::Unit;

/// Returns a lane for each instance.
pub(crate) fn lanes_of(alloc: Global, plan: &Plan) -> Result<Vec<Lane>, NoMemory>
    ensures opened { IfOk result (λ lanes. AreLanesOpened plan.now.run lanes.items) }
    ensures kept { IfOk result (λ lanes. AreLanes lanes.items) }
{
    let mut lanes = Vec::new(alloc);
    for instance in 0..plan.instances() {
        let image = Arc::clone(plan.image(instance))?;
        let lane = Lane::open(alloc, image, instance)?;
        lane.facts();
        lanes.push(lane)?;
    }
    Ok(lanes)
}

/// Returns a unit for each lane, with its image.
pub(crate) fn units_of(alloc: Global, lanes: &[Lane]) -> Result<Vec<Unit>, NoMemory>
    ensures { IfOk result (λ units. AllZip IsUnitOf lanes.now units.items) }
{
    let mut units = Vec::new(alloc);
    for lane in lanes {
        let image = Arc::clone(lane.image())?;
        units.push(Unit::new(alloc, image)?)?;
    }
    Ok(units)
}

/// Returns an empty hand for each worker.
pub(crate) fn hands_of(alloc: Global, workers: u32) -> Result<Vec<Vec<Ticket>>, NoMemory>
    ensures { IfOk result (λ hands. map (λ hand. hand.items) hands.items ≡ replicate workers []) }
{
    let mut hands = Vec::new(alloc);
    for _ in 0..workers {
        hands.push(Vec::new(alloc))?;
    }
    Ok(hands)
}
