//! The command `run`, in three steps: the plan of the text's system, its run, and how this ended.
ghost use Rattle.std.specs.Prelude.{◌≡◌, ◌<◌, ◌≤◌, IfOk};
ghost use Rattle.cosim_call.specs.Calls.{stream};
ghost use Rattle.cosim_call.specs.Coming.{Serves};
ghost use Rattle.cosim_answers.specs.Answer.{Answers};
ghost use Rattle.cosim_answers.specs.Serving.{Runs, TellsEnding};
ghost use Rattle.command_line.specs.declared.commands.Command.TheVariants.{Run};
ghost use Rattle.serial_run.specs.Alone.{IsAlone};

use command_line::Running;
use cosim_call::{Served, Stopped};
use cosim_io::Sink;
use cosim_notes::{ending_notes, plan_of, report_note, status_of};
use fixed_words::List;
use serial_run::run_alone;
use std::alloc::Global;
use std::sync::{Arc, Wait};
use std::thread::Threads;
use trace_core::Plan;
use trace_rows::{CrewFault, Report};
use work_crew::{Gate, Policy, run_crew};

/// Runs a plan in the calling thread. All steps of its report are its own, and there are no tickets.
pub(crate) fn run_plan<O: Sink>(
    alloc: Global,
    plan: &Arc<Plan>,
    out: &mut O,
) -> Result<Report, Stopped>
    ensures runs { Runs plan.now.value.system (stream (O.held out.old) (O.faults out.old)) (stream (O.held out.new) (O.faults out.new)) result }
    ensures alone { IfOk result IsAlone }
{
    match run_alone(alloc, Arc::clone(plan)?, out) {
        Ok(report) => Ok(report),
        Err(CrewFault::WriteFault) => Err(Stopped::WriteFault),
        Err(CrewFault::NoMemory) => Err(Stopped::NoMemory),
    }
}

/// How many workers step components ahead of a run, for how many rows, and by which guesses.
#[derive(Clone, Copy)]
pub(crate) struct Ahead {
    pub(crate) workers: u32,
    pub(crate) window: u32,
    pub(crate) policy: Policy,
    ghost few: { workers ≤ 16 },
    ghost near: { window ≤ 16 },
}

/// Runs a plan with workers. The gate says how long it waits for them.
pub(crate) fn run_crewed<R: Threads + Wait + Copy + Send + Drop + 'static, O: Sink, G: Gate>(
    rt: R,
    alloc: Global,
    plan: &Arc<Plan>,
    ahead: Ahead,
    out: &mut O,
    gate: &G,
) -> Result<Report, Stopped>
    ensures { Runs plan.now.value.system (stream (O.held out.old) (O.faults out.old)) (stream (O.held out.new) (O.faults out.new)) result }
{
    let Ahead {
        workers,
        window,
        policy,
    } = ahead;
    match run_crew(
        rt,
        alloc,
        Arc::clone(plan)?,
        workers,
        window,
        policy,
        out,
        gate,
    ) {
        Ok(report) => Ok(report),
        Err(CrewFault::WriteFault) => Err(Stopped::WriteFault),
        Err(CrewFault::NoMemory) => Err(Stopped::NoMemory),
    }
}

/// Returns the report of a run of a plan that came to its end: the status, and the notes, with the line of its counts where one is asked
/// for.
fn reported(alloc: Global, plan: &Plan, asked: &Running, report: Report) -> Result<Served, Stopped>
    ensures { TellsEnding plan.now.system asked.now report result }
{
    let mut notes = ending_notes(alloc, plan, report.outcome, report.last)?;
    if asked.report {
        notes.push(List::from_vec(report_note(alloc, report)?))?;
    }
    Ok(Served {
        status: status_of(report.outcome),
        notes,
    })
}

/// Runs a text in the calling thread, or refuses it.
pub(crate) fn serve<O: Sink>(
    alloc: Global,
    asked: &Running,
    text: &[u8],
    out: &mut O,
) -> Result<Served, Stopped>
    ensures { Serves (Answers (Run asked.now) text.now) (stream (O.held out.old) (O.faults out.old)) (stream (O.held out.new) (O.faults out.new)) result }
{
    let plan = plan_of(alloc, text)?;
    let report = run_plan(alloc, &plan, out)?;
    reported(alloc, &plan, asked, report)
}

/// Runs a text with the workers that are asked for, at least one, or refuses it.
pub(crate) fn serve_crewed<R: Threads + Wait + Copy + Send + Drop + 'static, O: Sink, G: Gate>(
    rt: R,
    alloc: Global,
    asked: &Running,
    text: &[u8],
    out: &mut O,
    gate: &G,
) -> Result<Served, Stopped>
    requires some { 0 < asked.now.workers }
    ensures { Serves (Answers (Run asked.now) text.now) (stream (O.held out.old) (O.faults out.old)) (stream (O.held out.new) (O.faults out.new)) result }
{
    let plan = plan_of(alloc, text)?;
    let ahead = Ahead {
        workers: asked.workers.get() as u32,
        window: asked.window.get() as u32,
        policy: asked.guess,
    };
    let report = run_crewed(rt, alloc, &plan, ahead, out, gate)?;
    reported(alloc, &plan, asked, report)
}
