//! The order of a system's outputs.
ghost use Rattle.std.specs.Prelude.{IfOk, IfErr};
ghost use Rattle.trace_plan.specs.Faults.{IsRightPlanFault};
ghost use Rattle.unit_tree.specs.Compositions.{run_of};
ghost use Rattle.unit_tree.specs.Routes.{IsOrderOf};

use crate::fault::PlanFault;
use std::alloc::Global;
use unit_tree::{Checked, Order};
use wire_graph::{OrderFault, order};

/// Returns an order of the outputs of a checked system, or the first output that has none.
pub(crate) fn order_of(alloc: Global, checked: &Checked) -> Result<Order, PlanFault>
    ensures ordered { IfOk result (IsOrderOf (run_of checked.now)) }
    ensures fault { IfErr result (IsRightPlanFault checked.now) }
{
    match order(alloc, checked) {
        Ok(order) => Ok(order),
        Err(OrderFault::Loop { instance, output }) => Err(PlanFault::Loop { instance, output }),
        Err(OrderFault::NoMemory) => Err(PlanFault::NoMemory),
    }
}
