//! A pair of nodes.
ghost use Rattle.std.specs.List.{AllByRecursion};
ghost use Rattle.std.specs.Prelude.{◌≡◌, ◌≤◌, length, slice_get, IfOk, OnErr};
ghost use Rattle.link_laws.specs.Making.{rule_of};
ghost use Rattle.link_core.specs.NodeStates.{IsSameNode, IsSamePair};
ghost use Rattle.link_laws.specs.Pairs.{delivered, event_step, happened, node_of, opened_pair};

use crate::node::Node;
use fixed_words::{List, NoMemory};
use link_laws::{Fact, PairEvent, Taken};
use std::alloc::Global;
use std::marker::Model;
use std::sync::Arc;
use trace_plan::Plan;

/// The fact at a place of the other node's list arrives at a node, where there is one.
pub fn deliver(node: &mut Node, other: &Node, place: u32) -> Result<Taken, NoMemory>
    requires plan { other.now.plan ≡ node.old.plan }
    ensures delivered { IfOk result (λ answer. (node.new.progress, answer)
        ≡ delivered (rule_of node.old.plan.run node.old.owners) node.old.me node.old.progress (slice_get other.now.progress.facts place)) }
    ensures same { IsSameNode node.old node.new }
    ensures refused { OnErr result (node.new ≡ node.old) }
{
    match other.facts().get(place as usize) {
        Some(fact) => node.take(fact),
        None => Ok(Taken::Dropped),
    }
}

/// Applies an event to a node, given the other one.
fn happen(node: &mut Node, other: &Node, event: &PairEvent) -> Result<Taken, NoMemory>
    requires plan { other.now.plan ≡ node.old.plan }
    ensures happened { IfOk result (λ answer. (node.new.progress, answer)
        ≡ happened (rule_of node.old.plan.run node.old.owners) node.old.me node.old.progress other.now.progress event.now) }
    ensures same { IsSameNode node.old node.new }
    ensures refused { OnErr result (node.new ≡ node.old) }
{
    match *event {
        PairEvent::Work { .. } => node.work(),
        PairEvent::Deliver { place, .. } => deliver(node, other, place),
        PairEvent::Keep { .. } => {
            node.keep();
            Ok(Taken::Kept)
        }
        PairEvent::Restart { .. } => {
            node.restart();
            Ok(Taken::Kept)
        }
    }
}

/// Returns the number of the node of an event.
fn node_of(event: &PairEvent) -> u32
    ensures { result ≡ node_of event.now }
{
    match *event {
        PairEvent::Work { node }
        | PairEvent::Deliver { node, .. }
        | PairEvent::Keep { node }
        | PairEvent::Restart { node } => node,
    }
}

/// The two nodes of one system.
#[derive(Drop)]
pub struct Pair {
    first: Node,
    second: Node,
}

impl Model for Pair {
    ghost use Rattle.std.specs.Coded.{codes};
    ghost use Rattle.link_core.specs.NodeStates.{PairState};
    ghost use Rattle.unit_tree.specs.contracts.expr.Expr as expr;
    ghost use Rattle.unit_tree.specs.contracts.line.Line as line;

    ghost Value = { PairState };

    ghost coded = { Prim.hlevel (codes, expr.the_row.coded, line.the_row.coded) };

    ghost use Rattle.link_core.specs.Joined.{pair_state, IsPair};

    ghost view = { pair_state };

    ghost invariant = { IsPair };
}

impl Pair {
    /// Opens both nodes at the start of a plan. `owners` has, for each instance, the number of the node that owns it.
    ///
    /// # Errors
    ///
    /// [`NoMemory`], also where there are more outputs than the numbers of facts allow.
    pub fn open(alloc: Global, plan: Arc<Plan>, owners: List<u8>) -> Result<Pair, NoMemory>
        requires owners { length owners ≡ length plan.value.run.members }
        requires one_or_other { AllByRecursion (λ owner. owner ≤ 1) owners }
        ensures { IfOk result (λ pair. pair ≡ record {
          plan = plan.value;
          owners = owners;
          both = opened_pair (rule_of plan.value.run owners) plan.value.run;
        }) }
    {
        let shared = Arc::clone(&plan)?;
        let copied = List::from_slice(alloc, owners.as_slice())?;
        let first = Node::open(alloc, shared, copied, 0)?;
        let second = Node::open(alloc, plan, owners, 1)?;
        Ok(Pair { first, second })
    }

    /// Applies an event, and returns the result of the call of the node. Where there is no such node or fact, this is
    /// [`Taken::Dropped`]. Saving a position and starting again return [`Taken::Kept`].
    ///
    /// # Errors
    ///
    /// [`NoMemory`]: nothing changed.
    pub fn apply(&mut self, event: &PairEvent) -> Result<Taken, NoMemory>
        ensures applied { IfOk result (λ answer. (self.new.both, answer)
            ≡ event_step (rule_of self.old.plan.run self.old.owners) self.old.both event.now) }
        ensures same { IsSamePair self.old self.new }
        ensures refused { OnErr result (self.new ≡ self.old) }
    {
        match node_of(event) {
            0 => happen(&mut self.first, &self.second, event),
            1 => happen(&mut self.second, &self.first, event),
            _ => Ok(Taken::Dropped),
        }
    }

    /// Returns node 0.
    pub fn first(&self) -> &Node
        ensures { result.now ≡ record { plan = self.now.plan; owners = self.now.owners; me = 0; progress = self.now.both.first } }
    {
        &self.first
    }

    /// Returns node 1.
    pub fn second(&self) -> &Node
        ensures { result.now ≡ record { plan = self.now.plan; owners = self.now.owners; me = 1; progress = self.now.both.second } }
    {
        &self.second
    }
}
