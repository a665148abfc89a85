//! Two nodes in one process.
ghost use Rattle.std.specs.Prelude.{◌≡◌, IfOk, OnErr};
ghost use Rattle.link_nodes.specs.Exchanges.{IsExchange, IsOpened, RoundsCome, exchange_rule, pair_of};
ghost use Rattle.link_nodes.specs.Rounds.{after_rounds};
ghost use Rattle.link_nodes.specs.Shown.{BeginsRounds, ShowsRounds, told_of};
ghost use Rattle.trace_rows.specs.Faults.{TellsFault};

use crate::exchange::Exchange;
use crate::row_room::{RowPrinter, judged};
use crate::spans::Spans;
use crate::transit::Round;
use cosim_io::Sink;
use fixed_words::{List, NoMemory};
use link_core::{Node, by_turns};
use std::alloc::Global;
use std::sync::Arc;
use super_time::Point;
use trace_plan::Plan;
use trace_rows::{CrewFault, put_header};
use unit_tree::Ending;

/// The progress of two nodes: the numbers of their rows, the point of node 0, and how the trace ended there, where it has.
#[derive(Clone, Copy, Debug, PartialEq, Eq)]
pub struct Nodes {
    pub first: u64,
    pub second: u64,
    pub last: Point,
    pub outcome: Option<Ending>,
}

/// Returns both nodes of a plan at its start. They own its instances by turns.
fn exchange_of(alloc: Global, plan: Arc<Plan>) -> Result<Exchange, NoMemory>
    ensures { IfOk result (IsOpened plan.value) }
{
    let owners = by_turns(alloc, &plan)?;
    let copied = List::from_slice(alloc, owners.as_slice())?;
    let first = Node::open(alloc, Arc::clone(&plan)?, owners, 0)?;
    let second = Node::open(alloc, Arc::clone(&plan)?, copied, 1)?;
    Ok(Exchange {
        plan,
        first,
        second,
        first_spans: Spans::new(alloc),
        second_spans: Spans::new(alloc),
        transit: Vec::new(alloc),
        room: RowPrinter::new(alloc),
    })
}

/// Makes so many rounds, or as many as change what is written or returned.
fn go_rounds<O: Sink>(
    exchange: &mut Exchange,
    seed: u64,
    rounds: u32,
    out: &mut O,
) -> Result<(), CrewFault>
    requires { IsExchange exchange.old }
    ensures { RoundsCome exchange.old (after_rounds (exchange_rule exchange.old) seed rounds (pair_of exchange.old)) exchange.new
        (O.held out.old) (O.held out.new) (O.faults out.old) (O.faults out.new) result }
{
    for number in 0..rounds {
        let round = Round {
            seed,
            number: u64::from(number) + 1,
        };
        exchange.round(round, out)?;
        // Node 1 has then saved its position, and stays at this row.
        if round.number % 5 == 0 && exchange.is_at_end() {
            return Ok(());
        }
    }
    Ok(())
}

/// Returns the progress of both nodes.
fn told(exchange: &Exchange) -> Nodes
    ensures { result ≡ told_of (pair_of exchange.now) }
{
    Nodes {
        first: exchange.first.number(),
        second: exchange.second.number(),
        last: exchange.first.point(),
        outcome: exchange.first.ended(),
    }
}

/// Runs a plan by two nodes for `rounds` rounds. They own its instances by turns. Writes the header and the rows to which node 0
/// comes, one piece each, and returns the progress of both.
///
/// In round k, from 1 on, node 0 works, then node 1. Then facts arrive, first at node 0: from the list of the other node, those of the
/// row of the receiving node whose place in the list plus k plus `seed` is not 3 modulo 4. They are encoded and decoded, and arrive
/// from the last to the first and each twice. Node 1 saves its position in each fifth round, and starts again in each eighth.
///
/// Rounds that would change nothing more that is written or returned are left out: node 0 has ended, and node 1 and its saved position
/// are at the same row.
///
/// Fails with [`CrewFault::WriteFault`] exactly where a write failed. After a failure the written bytes are a prefix of what these
/// rounds show.
pub fn run_nodes<O: Sink>(
    alloc: Global,
    plan: Arc<Plan>,
    seed: u64,
    rounds: u32,
    out: &mut O,
) -> Result<Nodes, CrewFault>
    ensures whole { IfOk result (ShowsRounds plan.value seed rounds (O.held out.old) (O.held out.new)) }
    ensures front { OnErr result (BeginsRounds plan.value seed rounds (O.held out.old) (O.held out.new)) }
    ensures cause { TellsFault (O.faults out.old) (O.faults out.new) result }
{
    // All memory of the nodes except for that of facts and lines is taken before anything is written.
    let mut exchange = exchange_of(alloc, plan)?;
    judged(&exchange.plan);
    put_header(alloc, &exchange.plan, out)?;
    go_rounds(&mut exchange, seed, rounds, out)?;
    Ok(told(&exchange))
}
