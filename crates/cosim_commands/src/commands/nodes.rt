//! The command `nodes`, in four steps: whether the text's system is small enough, its plan, the rounds of two nodes, and their progress.
ghost use Rattle.std.specs.Prelude.{◌≡◌, nat_le};
ghost use Rattle.cosim_call.specs.Calls.{stream};
ghost use Rattle.cosim_call.specs.Coming.{Serves};
ghost use Rattle.cosim_answers.specs.Answer.{Answers};
ghost use Rattle.cosim_answers.specs.NodesAnswers.{node_status, nodes_limit, size_for_nodes};
ghost use Rattle.cosim_answers.specs.Serving.{RunsNodes, TellsRounds};
ghost use Rattle.command_line.specs.declared.commands.Command.TheVariants.{Nodes as NodesAsked};
ghost use Rattle.unit_tree.specs.Compositions.{run_of};
ghost use Rattle.unit_tree.specs.Routes.{IsOrderOf};

use command_line::Splitting;
use cosim_call::{Served, Status, Stopped};
use cosim_io::Sink;
use cosim_notes::{accept, ending_notes, make_plan, nodes_note, status_of};
use fixed_words::List;
use link_nodes::{Nodes, run_nodes};
use model_rules::Rule;
use std::alloc::Global;
use std::sync::Arc;
use text_accept::AcceptedText;
use trace_core::Plan;
use trace_plan::{instances_of, row_limit_of};
use trace_rows::CrewFault;
use unit_tree::Ending;

/// The greatest number of words in the rows of a trace, and of instances times rows.
const LARGEST: u64 = 1_000_000;

/// Returns whether the trace of an accepted system is small enough.
fn is_small(read: &AcceptedText) -> bool
    requires { IsOrderOf (run_of read.now.checked) read.now.order }
    ensures { result ≡ nat_le (size_for_nodes (run_of read.now.checked)) nodes_limit }
{
    let outputs = read.order.routes().outputs.len() as u64;
    let instances = u64::from(instances_of(&read.checked));
    match row_limit_of(&read.checked).checked_mul(outputs.max(instances)) {
        Some(size) => size <= LARGEST,
        None => false,
    }
}

/// Lets two nodes make their rounds.
fn run_pair<O: Sink>(
    alloc: Global,
    plan: &Arc<Plan>,
    asked: Splitting,
    out: &mut O,
) -> Result<Nodes, Stopped>
    ensures { RunsNodes plan.now.value asked (stream (O.held out.old) (O.faults out.old)) (stream (O.held out.new) (O.faults out.new)) result }
{
    let rounds = asked.rounds.get() as u32;
    match run_nodes(alloc, Arc::clone(plan)?, asked.seed, rounds, out) {
        Ok(nodes) => Ok(nodes),
        Err(CrewFault::WriteFault) => Err(Stopped::WriteFault),
        Err(CrewFault::NoMemory) => Err(Stopped::NoMemory),
    }
}

/// Returns the status, by how node 0 ended, where it did.
fn status_after(outcome: Option<Ending>) -> Status
    ensures { result ≡ node_status outcome }
{
    match outcome {
        Some(ending) => status_of(ending),
        None => Status::Done,
    }
}

/// Returns the report of two nodes that made their rounds: the status, how node 0 ended, and their progress.
fn told(alloc: Global, plan: &Plan, nodes: Nodes) -> Result<Served, Stopped>
    ensures { TellsRounds plan.now.system nodes result }
{
    let mut notes = match nodes.outcome {
        Some(ending) => ending_notes(alloc, plan, ending, nodes.last)?,
        None => List::new(alloc),
    };
    notes.push(List::from_vec(nodes_note(alloc, nodes.first, nodes.second)?))?;
    Ok(Served {
        status: status_after(nodes.outcome),
        notes,
    })
}

/// Runs a text by two nodes, or refuses it.
pub(crate) fn serve<O: Sink>(
    alloc: Global,
    asked: Splitting,
    text: &[u8],
    out: &mut O,
) -> Result<Served, Stopped>
    ensures { Serves (Answers (NodesAsked asked) text.now) (stream (O.held out.old) (O.faults out.old)) (stream (O.held out.new) (O.faults out.new)) result }
{
    let read = accept(alloc, text)?;
    if !is_small(&read) {
        return Err(Stopped::Refused {
            line: 1,
            rule: Rule::NodesFit.number(),
        });
    }
    let plan = make_plan(alloc, read)?;
    let nodes = run_pair(alloc, &plan, asked, out)?;
    told(alloc, &plan, nodes)
}
