//! The command `replay`: writes what `run` does, from a world in which a seed draws the events of the workers, and notes a line of
//! counts.
ghost use Rattle.cosim_call.specs.Calls.{stream};
ghost use Rattle.cosim_call.specs.Coming.{Serves};
ghost use Rattle.cosim_answers.specs.Answer.{Answers};
ghost use Rattle.cosim_answers.specs.Serving.{Replays, TellsReplayed};
ghost use Rattle.command_line.specs.declared.commands.Command.TheVariants.{Replay};

use command_line::Replaying;
use cosim_call::{Served, Stopped};
use cosim_io::Sink;
use cosim_notes::{counts_note, ending_notes, plan_of, status_of};
use fixed_words::List;
use spec_core::{Counts, ReplayFault, replay};
use std::alloc::Global;
use std::sync::Arc;
use trace_core::Plan;

/// Replays a plan in the calling thread.
fn replay_plan<O: Sink>(
    alloc: Global,
    plan: &Arc<Plan>,
    asked: Replaying,
    out: &mut O,
) -> Result<Counts, Stopped>
    ensures { Replays plan.now.value asked (stream (O.held out.old) (O.faults out.old)) (stream (O.held out.new) (O.faults out.new)) result }
{
    let workers = asked.workers.get() as u32;
    match replay(alloc, Arc::clone(plan)?, asked.seed, workers, out) {
        Ok(counts) => Ok(counts),
        Err(ReplayFault::WriteFault) => Err(Stopped::WriteFault),
        Err(ReplayFault::NoMemory) => Err(Stopped::NoMemory),
    }
}

/// Returns the report of a replay that came to its end: the status, and the notes with the line of its counts.
fn replayed(alloc: Global, plan: &Plan, counts: Counts) -> Result<Served, Stopped>
    ensures { TellsReplayed plan.now.system counts result }
{
    let mut notes = ending_notes(alloc, plan, counts.outcome, counts.last)?;
    notes.push(List::from_vec(counts_note(alloc, counts)?))?;
    Ok(Served {
        status: status_of(counts.outcome),
        notes,
    })
}

/// Replays a text, or refuses it.
pub(crate) fn serve<O: Sink>(
    alloc: Global,
    asked: Replaying,
    text: &[u8],
    out: &mut O,
) -> Result<Served, Stopped>
    ensures { Serves (Answers (Replay asked) text.now) (stream (O.held out.old) (O.faults out.old)) (stream (O.held out.new) (O.faults out.new)) result }
{
    let plan = plan_of(alloc, text)?;
    let counts = replay_plan(alloc, &plan, asked, out)?;
    replayed(alloc, &plan, counts)
}
