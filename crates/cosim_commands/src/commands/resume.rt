//! The command `resume`, in four steps: what the text saves, the plan of the system after it, a run from there, and how this ended.
ghost use Rattle.std.specs.Prelude.{◌≡◌, ◌+◌, ◌<◌, ◌≤◌, ◌^◌, length, IfErr, IfOk};
ghost use Rattle.command_line.specs.Commands.{saved_limit};
ghost use Rattle.command_line.specs.declared.commands.Command.TheVariants.{Resume};
ghost use Rattle.cosim_answers.specs.Accepted.{planned};
ghost use Rattle.cosim_answers.specs.Answer.{Answers};
ghost use Rattle.cosim_answers.specs.SavedAnswers.{lines_before, text_behind};
ghost use Rattle.cosim_answers.specs.Serving.{FindsSaved, GoesOn, IsAccepted, IsRefusedBehind, OpensSaved, TellsResumed};
ghost use Rattle.cosim_call.specs.Calls.{stream};
ghost use Rattle.cosim_call.specs.Coming.{Serves};
ghost use Rattle.save_point.specs.SavedTexts.{IsSaved};
ghost use Rattle.trace_core.specs.Runs.{IsOpened, Stands};

use cosim_call::{Served, Stopped};
use cosim_io::Sink;
use cosim_notes::{ending_notes, plan_of, status_of};
use model_rules::Rule;
use save_point::{Saved, SavedFault, open_saved, read_saved};
use serial_run::put_rest;
use std::alloc::Global;
use std::sync::Arc;
use trace_core::{OpenFault, Plan, Run};
use trace_rows::{CrewFault, Report};

/// How many lines come before those of the states.
const FIRST_LINES: u32 = 3;

/// Returns what a text saves, or the line at which it breaks.
fn saved_in(alloc: Global, text: &[u8]) -> Result<Saved, Stopped>
    ensures { FindsSaved text.now result }
{
    match read_saved(alloc, text) {
        Ok(saved) => Ok(saved),
        Err(SavedFault::Line { line }) => Err(Stopped::Refused {
            line,
            rule: Rule::PositionIsThere.number(),
        }),
        Err(SavedFault::NoMemory) => Err(Stopped::NoMemory),
    }
}

/// Returns the number in the whole text of a line after those that save a position.
fn line_in_whole(saved: &Saved, line: u32) -> u32
    requires { lines_before saved.now + line < 2 ^ 32 }
    ensures { result ≡ lines_before saved.now + line }
{
    FIRST_LINES + saved.names.len() as u32 + line
}

/// Returns the plan of the system of the text after the saved position, or the refusal of that text.
fn plan_behind(alloc: Global, text: &[u8], saved: &Saved) -> Result<Arc<Plan>, Stopped>
    requires saved { IsSaved text.now saved.now }
    requires within { length text.now ≤ saved_limit }
    ensures planned { IfOk result (λ plan. IsAccepted (text_behind text.now saved.now) plan.value.system) }
    ensures whole { IfOk result (λ plan. plan.value ≡ planned plan.value.system) }
    ensures refused { IfErr result (IsRefusedBehind text.now saved.now) }
{
    match plan_of(alloc, &text[saved.rest as usize..]) {
        Ok(plan) => Ok(plan),
        Err(Stopped::Refused { line, rule }) => Err(Stopped::Refused {
            line: line_in_whole(saved, line),
            rule,
        }),
        Err(why) => Err(why),
    }
}

/// Returns the run of a plan from the saved position, or the refusal of this position.
fn run_from(alloc: Global, plan: &Arc<Plan>, saved: &Saved) -> Result<Run, Stopped>
    ensures { OpensSaved plan.now.value saved.now result }
{
    match open_saved(alloc, Arc::clone(plan)?, saved) {
        Ok(run) => Ok(run),
        Err(OpenFault::Misfit) => Err(Stopped::Refused {
            line: 1,
            rule: Rule::PositionFits.number(),
        }),
        Err(OpenFault::NoMemory) => Err(Stopped::NoMemory),
    }
}

/// Writes the rows of a run from where it was opened.
fn go_on<O: Sink>(alloc: Global, plan: &Plan, run: Run, out: &mut O) -> Result<Report, Stopped>
    requires opened { IsOpened plan.now run.opened run }
    requires stands { Stands run }
    ensures { GoesOn plan.now run.opened (stream (O.held out.old) (O.faults out.old)) (stream (O.held out.new) (O.faults out.new)) result }
{
    match put_rest(alloc, plan, run, out) {
        Ok(report) => Ok(report),
        Err(CrewFault::WriteFault) => Err(Stopped::WriteFault),
        Err(CrewFault::NoMemory) => Err(Stopped::NoMemory),
    }
}

/// Returns the report of a run that came to its end: the status, and the notes.
fn resumed(alloc: Global, plan: &Plan, report: Report) -> Result<Served, Stopped>
    ensures { TellsResumed plan.now.system report result }
{
    let notes = ending_notes(alloc, plan, report.outcome, report.last)?;
    Ok(Served {
        status: status_of(report.outcome),
        notes,
    })
}

/// Continues from the position that a text saves, or refuses the text.
pub(crate) fn serve<O: Sink>(alloc: Global, text: &[u8], out: &mut O) -> Result<Served, Stopped>
    requires within { length text.now ≤ saved_limit }
    ensures { Serves (Answers Resume text.now) (stream (O.held out.old) (O.faults out.old)) (stream (O.held out.new) (O.faults out.new)) result }
{
    let saved = saved_in(alloc, text)?;
    let plan = plan_behind(alloc, text, &saved)?;
    let run = run_from(alloc, &plan, &saved)?;
    let report = go_on(alloc, &plan, run, out)?;
    resumed(alloc, &plan, report)
}
