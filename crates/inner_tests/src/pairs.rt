//! Pairs of nodes, and a fact that is delivered to the node that may not take it.
ghost use Rattle.std.specs.Prelude.{◌≡◌, IfOk};

use fixed_words::{Fault, NoMemory};
use link_core::{Asked, Fact, Node, Pair, PairEvent, Said, Seen, Taken, by_turns, deliver};
use std::alloc::Global;
use std::sync::Arc;
use std::test::Fail;
use test_plans::plan_of;
use trace_plan::Plan;
use unit_tree::{Ending, Place};

/// A unit that counts, until one second.
const COUNTER: &str =
    "cosim 1\nunit Counter\n  state n : Int64 = 0\n  output y : Int64 = n\n  step\n    n := n + 1\n  end\nend\ninstance a : Counter\nend\nstop 1\nlongest 1\n";

/// An output that needs two others: one with a fault and one of the other node.
const FAULTY: &str =
    "cosim 1\nunit A\nstate z : Int64 = 0\ninput u : Int64 = 0\ninput v : Int64 = 0\noutput p : Int64 = 1 div z\noutput x : Int64 needs u, v = u + v\nend\nunit B\noutput y : Int64 = 3\nend\ninstance a : A\nend\ninstance b : B\nend\nconnect a.p -> a.u\nconnect b.y -> a.v\nstop 1\n";

/// A ring of two instances.
const RING: &str =
    "cosim 1\nunit B\ninput u : Int64 = 0\noutput y : Int64 needs u = u + 1\nend\nunit A\nstate n : Int64 = 10\ninput u : Int64 = 0\noutput x : Int64 = n\nstep\nn := u\nend\nend\ninstance b : B\nend\ninstance a : A\nend\nconnect a.x -> b.u\nconnect b.y -> a.u\nstop 3\nlongest 1\n";

/// Returns both nodes of the system of a text, whose instances they own by turns.
fn pair_of(alloc: Global, text: &str) -> Result<Pair, Fail> {
    let plan = plan_of(alloc, text)?;
    let owners = by_turns(alloc, &plan)?;
    Ok(Pair::open(alloc, plan, owners)?)
}

/// Returns whether events of a pair have these results.
fn come_to(pair: &mut Pair, events: &[(PairEvent, Taken)]) -> Result<bool, NoMemory> {
    for (event, taken) in events {
        if pair.apply(event)? != *taken {
            return Ok(false);
        }
    }
    Ok(true)
}

/// Where a pair stands.
#[derive(Clone, Copy)]
struct Stand<'a> {
    /// The rows of both nodes.
    rows: (u64, u64),
    /// How node 0 ended, if it has ended.
    ended: Option<Ending>,
    /// How many facts node 0 made, and the first ones of them.
    count: usize,
    facts: &'a [Fact],
}

/// Returns whether a pair stands so.
fn stands_so(pair: &Pair, so: Stand<'_>) -> bool {
    let facts = pair.first().facts();
    (pair.first().number(), pair.second().number()) == so.rows
        && pair.first().ended() == so.ended
        && facts.len() == so.count
        && facts.starts_with(so.facts)
}

/// Returns whether events of the pair of a text have these results, after which it stands so.
fn comes_so(
    alloc: Global,
    text: &str,
    events: &[(PairEvent, Taken)],
    so: Stand<'_>,
) -> Result<bool, Fail> {
    let mut pair = pair_of(alloc, text)?;
    let come = come_to(&mut pair, events);
    let stands = stands_so(&pair, so);
    drop(pair);
    Ok(come? && stands)
}

/// It begins again where it saved its position, also after its end, and goes to the end again.
#[test]
fn a_node_that_owns_all_works_by_itself(rt: HostRuntime) -> Result<(), Fail> {
    let events = [
        (PairEvent::Work { node: 0 }, Taken::Row),
        (PairEvent::Keep { node: 0 }, Taken::Kept),
        (PairEvent::Work { node: 0 }, Taken::Ended),
        (PairEvent::Restart { node: 0 }, Taken::Kept),
        (PairEvent::Work { node: 0 }, Taken::Ended),
    ];
    let so = Stand {
        rows: (1, 0),
        ended: Some(Ending::Completed),
        count: 5,
        facts: &[],
    };
    assert!(rt; comes_so(rt.alloc(), COUNTER, &events, so)?);
    Ok(())
}

/// It is a fact that an output has no word as soon as one that it needs has none, whatever else is unknown.
#[test]
fn a_fault_is_told_before_all_words_are_known(rt: HostRuntime) -> Result<(), Fail> {
    let events = [
        (PairEvent::Work { node: 0 }, Taken::Kept),
        (PairEvent::Work { node: 1 }, Taken::Kept),
        (PairEvent::Deliver { node: 0, place: 0 }, Taken::Ended),
        (PairEvent::Deliver { node: 0, place: 0 }, Taken::Dropped),
    ];
    let ending = Ending::UnitFault {
        instance: 0,
        place: Place::Output(0),
        fault: Fault::ZeroDivisor,
    };
    let facts = [
        Fact::Word {
            row: 0,
            place: 0,
            seen: Seen::Fault(Fault::ZeroDivisor),
        },
        Fact::Word {
            row: 0,
            place: 1,
            seen: Seen::Undefined,
        },
    ];
    let so = Stand {
        rows: (0, 0),
        ended: Some(ending),
        count: 2,
        facts: &facts,
    };
    assert!(rt; comes_so(rt.alloc(), FAULTY, &events, so)?);
    Ok(())
}

/// A fact that is known, or that isn't there, is dropped. So is one of the row before, and all that is for no node.
#[test]
fn a_counter_goes_on_by_three_facts(rt: HostRuntime) -> Result<(), Fail> {
    let events = [
        (PairEvent::Work { node: 0 }, Taken::Row),
        (PairEvent::Work { node: 1 }, Taken::Kept),
        (PairEvent::Deliver { node: 1, place: 0 }, Taken::Kept),
        (PairEvent::Deliver { node: 1, place: 1 }, Taken::Kept),
        (PairEvent::Deliver { node: 1, place: 1 }, Taken::Dropped),
        (PairEvent::Deliver { node: 1, place: 3 }, Taken::Dropped),
        (PairEvent::Deliver { node: 2, place: 2 }, Taken::Dropped),
        (PairEvent::Deliver { node: 1, place: 2 }, Taken::Row),
        (PairEvent::Deliver { node: 1, place: 0 }, Taken::Dropped),
        (PairEvent::Restart { node: 1 }, Taken::Kept),
        (PairEvent::Deliver { node: 1, place: 0 }, Taken::Kept),
    ];
    let so = Stand {
        rows: (1, 0),
        ended: None,
        count: 3,
        facts: &[],
    };
    assert!(rt; comes_so(rt.alloc(), COUNTER, &events, so)?);
    Ok(())
}

#[test]
fn a_ring_goes_on_by_facts_of_both(rt: HostRuntime) -> Result<(), Fail> {
    let events = [
        (PairEvent::Work { node: 0 }, Taken::Kept),
        (PairEvent::Work { node: 1 }, Taken::Kept),
        (PairEvent::Deliver { node: 0, place: 0 }, Taken::Kept),
        (PairEvent::Deliver { node: 0, place: 0 }, Taken::Dropped),
        (PairEvent::Deliver { node: 0, place: 1 }, Taken::Dropped),
        (PairEvent::Deliver { node: 1, place: 0 }, Taken::Kept),
        (PairEvent::Deliver { node: 1, place: 1 }, Taken::Kept),
        (PairEvent::Deliver { node: 0, place: 1 }, Taken::Kept),
        (PairEvent::Deliver { node: 0, place: 2 }, Taken::Row),
        (PairEvent::Deliver { node: 0, place: 2 }, Taken::Dropped),
        (PairEvent::Deliver { node: 1, place: 2 }, Taken::Row),
        (PairEvent::Keep { node: 1 }, Taken::Kept),
        (PairEvent::Restart { node: 0 }, Taken::Kept),
        (PairEvent::Work { node: 0 }, Taken::Kept),
    ];
    let facts = [
        Fact::Word {
            row: 0,
            place: 0,
            seen: Seen::Is(11),
        },
        Fact::Limit {
            row: 0,
            instance: 0,
            asked: Asked::Free,
        },
        Fact::Reply {
            row: 0,
            instance: 0,
            redo: false,
            said: Said::Accepted(1),
        },
    ];
    let so = Stand {
        rows: (0, 1),
        ended: None,
        count: 3,
        facts: &facts,
    };
    assert!(rt; comes_so(rt.alloc(), RING, &events, so)?);
    Ok(())
}

/// Returns node 1 of a plan, twice.
fn second_twice(alloc: Global, plan: &Arc<Plan>) -> Result<(Node, Node), NoMemory>
    ensures { IfOk result (λ nodes. nodes.0.plan ≡ nodes.1.plan) }
{
    let owners = by_turns(alloc, plan)?;
    let one = Node::open(alloc, Arc::clone(plan)?, owners, 1)?;
    let owners = by_turns(alloc, plan)?;
    Ok((one, Node::open(alloc, Arc::clone(plan)?, owners, 1)?))
}

/// Returns the results of the work of a node, and of taking its first fact by another node.
fn work_and_deliver(one: &mut Node, other: &mut Node) -> Result<(Taken, Taken), NoMemory>
    requires { one.old.plan ≡ other.old.plan }
{
    Ok((one.work()?, deliver(other, one, 0)?))
}

/// A node drops a fact of its own instance, whoever lists it.
#[test]
fn a_node_takes_no_fact_of_its_own(rt: HostRuntime) -> Result<(), Fail> {
    let plan = plan_of(rt.alloc(), RING)?;
    let (mut one, mut other) = second_twice(rt.alloc(), &plan)?;
    drop(plan);
    let taken = work_and_deliver(&mut one, &mut other);
    drop(one);
    drop(other);
    assert_eq!(rt; taken?, (Taken::Kept, Taken::Dropped));
    Ok(())
}
