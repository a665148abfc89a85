//! Which node owns which instance.
ghost use Rattle.std.specs.List.{AllByRecursion};
ghost use Rattle.std.specs.Prelude.{◌≡◌, ◌≤◌, length, IfOk};
ghost use Rattle.link_laws.specs.Nodes.{by_turns};

use fixed_words::{List, NoMemory};
use std::alloc::Global;
use trace_plan::Plan;

/// Returns the owners of a plan's instances by turns: node 0 owns the first one, node 1 the second, and so on.
pub fn by_turns(alloc: Global, plan: &Plan) -> Result<List<u8>, NoMemory>
    ensures turns { IfOk result (λ owners. owners ≡ by_turns (length plan.now.run.members)) }
    ensures owners { IfOk result (λ owners. length owners ≡ length plan.now.run.members) }
    ensures one_or_other { IfOk result (AllByRecursion (λ owner. owner ≤ 1)) }
{
    let mut owners = List::new(alloc);
    for instance in 0..plan.instances() {
        owners.push((instance % 2) as u8)?;
    }
    Ok(owners)
}
