//! Calls of the nodes, and facts that arrive at them.
ghost use Rattle.std.specs.Prelude.{◌≡◌, [], length, reverse, OnOk};
ghost use Rattle.std.specs.List.{AllByRecursion};
ghost use Rattle.link_laws.specs.Keeping.{IsHonest};
ghost use Rattle.link_laws.specs.Making.{rule_of};
ghost use Rattle.link_core.specs.NodeStates.{IsSameNode};
ghost use Rattle.link_laws.specs.Nodes.{taken, worked};
ghost use Rattle.link_nodes.specs.ShownRows.{ComesTo, taken_all};

use crate::row_room::{RowPrinter, judged};
use cosim_io::Sink;
use fixed_words::NoMemory;
use link_core::{Fact, Node};
use trace_plan::Plan;
use trace_rows::CrewFault;

/// Lets node 0 work, and writes the row to which it comes.
pub(crate) fn work_shown<O: Sink>(
    room: &mut RowPrinter,
    plan: &Plan,
    node: &mut Node,
    out: &mut O,
) -> Result<(), CrewFault>
    requires own { node.old.plan ≡ plan.now }
    requires owners { length node.old.owners ≡ length plan.now.run.members }
    requires me { node.old.me ≡ 0 }
    ensures comes { ComesTo plan.now node.old.progress
        ((worked (rule_of plan.now.run node.old.owners) 0 node.old.progress).0) node.new.progress
        (O.held out.old) (O.held out.new) (O.faults out.old) (O.faults out.new) result }
    ensures same { IsSameNode node.old node.new }
{
    judged(plan);
    // Called for its clauses, which state that the node keeps to the trace.
    let _ = node.number();
    let going = node.ended().is_none();
    let came = node.work()?;
    room.show(plan, node, going, came, out)
}

/// Lets node 0 take a fact, and writes the row to which it comes.
fn take_shown<O: Sink>(
    room: &mut RowPrinter,
    plan: &Plan,
    node: &mut Node,
    fact: &Fact,
    out: &mut O,
) -> Result<(), CrewFault>
    requires own { node.old.plan ≡ plan.now }
    requires owners { length node.old.owners ≡ length plan.now.run.members }
    requires me { node.old.me ≡ 0 }
    requires honest { IsHonest plan.now.run fact.now }
    ensures comes { ComesTo plan.now node.old.progress
        ((taken (rule_of plan.now.run node.old.owners) 0 node.old.progress fact.now).0) node.new.progress
        (O.held out.old) (O.held out.new) (O.faults out.old) (O.faults out.new) result }
    ensures same { IsSameNode node.old node.new }
{
    judged(plan);
    // Called for its clauses, which state that the node keeps to the trace.
    let _ = node.number();
    let going = node.ended().is_none();
    let came = node.take(fact)?;
    room.show(plan, node, going, came, out)
}

/// Lets facts arrive at node 0, from the last to the first and each twice, and writes the rows to which it comes.
pub(crate) fn take_all_shown<O: Sink>(
    room: &mut RowPrinter,
    plan: &Plan,
    node: &mut Node,
    transit: &mut Vec<Fact>,
    out: &mut O,
) -> Result<(), CrewFault>
    requires own { node.old.plan ≡ plan.now }
    requires owners { length node.old.owners ≡ length plan.now.run.members }
    requires me { node.old.me ≡ 0 }
    requires honest { AllByRecursion (IsHonest plan.now.run) transit.old.items }
    ensures comes { ComesTo plan.now node.old.progress
        (taken_all (rule_of plan.now.run node.old.owners) 0 node.old.progress (reverse transit.old.items)) node.new.progress
        (O.held out.old) (O.held out.new) (O.faults out.old) (O.faults out.new) result }
    ensures same { IsSameNode node.old node.new }
    ensures empty { OnOk result (transit.new.items ≡ []) }
{
    while let Some(fact) = transit.pop() {
        take_shown(room, plan, node, &fact, out)?;
        take_shown(room, plan, node, &fact, out)?;
    }
    Ok(())
}

/// Lets facts arrive at node 1, from the last to the first and each twice.
pub(crate) fn take_all(
    plan: &Plan,
    node: &mut Node,
    transit: &mut Vec<Fact>,
) -> Result<(), NoMemory>
    requires own { node.old.plan ≡ plan.now }
    requires me { node.old.me ≡ 1 }
    requires honest { AllByRecursion (IsHonest plan.now.run) transit.old.items }
    ensures taken { OnOk result (node.new.progress
        ≡ taken_all (rule_of plan.now.run node.old.owners) 1 node.old.progress (reverse transit.old.items)) }
    ensures same { IsSameNode node.old node.new }
    ensures empty { OnOk result (transit.new.items ≡ []) }
{
    while let Some(fact) = transit.pop() {
        node.take(&fact)?;
        node.take(&fact)?;
    }
    Ok(())
}
